// Borders of the test blocks.
ghost use Rattle.std.specs.Prelude.{◌<◌, ◌^◌};

use block::{BorderSet, Borders};
use test_texts::random::next;

// Returns a symbol: the upper 21 bits of x.
pub fn symbol(x: u32) -> u32
    ensures { result < 2 ^ 21 }
{
    x / 2048
}

// Returns the borders with a number from 0 to 15, one bit for each side.
pub fn borders_of(number: u32) -> Borders {
    Borders {
        top: number % 2 == 1,
        right: number / 2 % 2 == 1,
        bottom: number / 4 % 2 == 1,
        left: number / 8 % 2 == 1,
    }
}

// Returns border symbols made from x and the next seven random numbers.
pub fn border_set(x: u32) -> BorderSet {
    let b = next(x);
    let c = next(b);
    let d = next(c);
    let e = next(d);
    let f = next(e);
    let g = next(f);
    let h = next(g);
    BorderSet {
        top_left: symbol(x),
        top_right: symbol(b),
        bottom_left: symbol(c),
        bottom_right: symbol(d),
        vertical_left: symbol(e),
        vertical_right: symbol(f),
        horizontal_top: symbol(g),
        horizontal_bottom: symbol(h),
    }
}
