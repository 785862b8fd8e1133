// Notices to draw, in blocks of every kind, with and without titles.
ghost use Rattle.std.specs.Prelude.{◌<◌, ◌≤◌};
ghost use Rattle.test_blocks.specs.ScreensExtra.{Accepted};

use crate::Case;
use crate::settings::{notice, padding};
use buffer::Screen;
use layout::Rect;
use paragraph::Notice;
use test_blocks::areas::{area, roomy};
use test_blocks::drawn::block;
use test_blocks::many_titles::Manner;
use test_blocks::words::four_on;
use test_texts::random::{below, next, seed};

// Returns an area: one in eight is any, the others have room for text.
fn notice_area(chosen: u32, x: u32, screen: Screen) -> Rect
    requires { Accepted screen }
{
    if below(chosen, 8) == 0 {
        return area(x, screen);
    }
    roomy(x, screen)
}

// Returns the number of titles: none in half of the cases.
fn titles(x: u32) -> u32
    ensures { result ≤ 16 }
{
    match below(x, 8) {
        0..=3 => 0,
        4..=6 => 1 + below(next(x), 3),
        _ => below(next(x), 17),
    }
}

// Returns the notice with a number, whose block's style numbers are below `styles`. The block is made from the random numbers
// from the eighth after x on, the rest from y and those after it.
fn framed(number: u32, styles: u32, x: u32, y: u32) -> Notice
    requires { (0 < styles) × (styles ≤ 8) }
{
    let block = block(number, styles, 4, padding(y), four_on(four_on(x)));
    notice(block, four_on(y))
}

// Returns the case with a number on a screen, with a text of up to `most` records, made from x and the random numbers after it.
// Its block uses the first few of the 64 styles, its text any of them.
fn case(number: u32, screen: Screen, most: u32, x: u32) -> Case
    requires accepted { Accepted screen }
    requires le_most { (2 ≤ most) × (most ≤ 1024) }
{
    let y = next(x);
    let z = seed(next(y));
    let v = seed(next(z));
    let styles = 1 + below(x, 8);
    Case {
        notice: framed(number, styles, y, next(v)),
        area: notice_area(v, y, screen),
        screen: screen,
        records: most,
        manner: Manner {
            titles: titles(z),
            glyphs: 16,
            right: false,
            styles,
        },
        seed: x,
    }
}

// Returns the case with a number on a screen of up to 11 × 9 cells, with a text of up to 64 records. Most clipped glyphs occur
// here.
pub fn narrow(number: u32) -> Case {
    let a = seed(number);
    let b = next(a);
    let screen = Screen {
        columns: (4 + below(a, 8)) as u16,
        rows: (4 + below(b, 6)) as u16,
    };
    case(number, screen, 64, next(b))
}

// Returns the case with a number on a screen of up to 40 × 10 cells, with a text of up to 64 records, not that of `narrow`.
pub fn small(number: u32) -> Case {
    let a = seed(seed(number));
    let b = next(a);
    let screen = Screen {
        columns: (1 + below(a, 40)) as u16,
        rows: (4 + below(b, 7)) as u16,
    };
    case(number, screen, 64, next(b))
}

// Returns the case with a number on a screen of 120 × 30 cells, with a text of up to 1,024 records.
pub fn large(number: u32) -> Case {
    let screen = Screen {
        columns: 120,
        rows: 30,
    };
    case(number, screen, 1024, seed(number))
}
