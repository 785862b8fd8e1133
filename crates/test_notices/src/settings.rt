// Settings of the test notices.
ghost use Rattle.std.specs.Prelude.{◌<◌, ◌≤◌};

use block::Block;
use line_composer::Wrap;
use padding::Padding;
use paragraph::Notice;
use test_blocks::words::four_on;
use test_texts::random::{below, next};
use test_texts::texts::{alignment_of, ambiguous_of};

// Returns the padding of one side: mostly none, and once in 128 more than fits.
fn padded(x: u32) -> u16 {
    match below(x, 128) {
        0..=107 => 0,
        108..=119 => 1,
        120..=126 => 2,
        _ => 65535,
    }
}

// Returns a padding made from x and the next three random numbers.
pub fn padding(x: u32) -> Padding {
    let b = next(x);
    let c = next(b);
    Padding::new(padded(x), padded(b), padded(c), padded(next(c)))
}

// Returns the scroll to the right or down: 0, less than `reach`, or past the end of any text.
fn scrolled(x: u32, reach: u32) -> u16
    requires { (0 < reach) × (reach ≤ 8) }
{
    match below(x, 16) {
        0..=7 => 0,
        8..=14 => below(next(x), reach) as u16,
        _ => 65535,
    }
}

// Returns unwrapped, wrapped, or wrapped and trimmed, one in three each.
fn wrap(x: u32) -> Wrap {
    match below(x, 3) {
        0 => Wrap::Off {
            column: scrolled(next(x), 6),
        },
        1 => Wrap::On { trim: false },
        _ => Wrap::On { trim: true },
    }
}

// Returns a notice with a block, made from x and the random numbers after it.
pub fn notice(block: Block, x: u32) -> Notice {
    let b = next(x);
    let c = next(b);
    let d = next(c);
    Notice {
        block: block,
        style: below(x, 64) as u8,
        text_style: below(b, 64) as u8,
        alignment: alignment_of(below(c, 3)),
        wrap: wrap(d),
        scroll: scrolled(four_on(d), 4),
        ambiguous: ambiguous_of(below(four_on(four_on(d)), 2)),
    }
}
