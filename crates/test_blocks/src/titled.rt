// Blocks to draw with up to 16 titles, of every alignment and position or all at the right.
ghost use Rattle.std.specs.Prelude.{◌≤◌};
ghost use Rattle.test_blocks.specs.ScreensExtra.{Accepted};

use crate::Case;
use crate::areas::{area, roomy};
use crate::drawn::block;
use crate::many_titles::Manner;
use crate::words::four_on;
use buffer::Screen;
use layout::Rect;
use padding::Padding;
use test_texts::random::{below, next, seed};

// Returns an area: one in four is any, the others have room for titles.
fn titled_area(number: u32, x: u32, screen: Screen) -> Rect
    requires { Accepted screen }
{
    if number % 4 == 0 {
        return area(x, screen);
    }
    roomy(x, screen)
}

// Returns the number of titles.
fn count(x: u32) -> u32
    ensures { result ≤ 16 }
{
    match below(x, 8) {
        0..=3 => below(next(x), 5),
        4 => 16,
        _ => below(next(x), 17),
    }
}

// Returns the maximum number of glyphs in a title: `most`, or a half, a quarter or an eighth of it.
fn glyphs(x: u32, most: u32) -> u32
    requires { most ≤ 256 }
    ensures { result ≤ 256 }
{
    match below(x, 4) {
        0 => most,
        1 => most / 2,
        2 => most / 4,
        _ => most / 8,
    }
}

// Returns the case with a number on a screen, with titles of up to `most` glyphs, all right titles if `right` is set, made from x and
// the random numbers after it.
fn case(number: u32, screen: Screen, most: u32, right: bool, x: u32) -> Case
    requires accepted { Accepted screen }
    requires most_bound { most ≤ 256 }
{
    let y = next(x);
    let z = seed(next(y));
    let styles = 1 + below(x, 8);
    Case {
        block: block(number, styles, 4, Padding::uniform(1), four_on(four_on(y))),
        area: titled_area(number / 384, y, screen),
        screen: Some(screen),
        manner: Manner {
            titles: count(z),
            glyphs: glyphs(next(next(z)), most),
            right,
            styles,
        },
        seed: x,
    }
}

// Returns the case with a number on a screen of up to 40 × 5 cells, with titles of up to 16 glyphs, all right titles if `right` is set.
fn few_cells(number: u32, right: bool) -> Case {
    let a = seed(number);
    let b = next(a);
    let screen = Screen {
        columns: (1 + below(a, 40)) as u16,
        rows: (1 + below(b, 5)) as u16,
    };
    case(number, screen, 16, right, next(b))
}

// Returns such a case with titles of every alignment.
pub fn small(number: u32) -> Case {
    few_cells(number, false)
}

// Returns such a case with right titles alone: it uses the numbers of blocks whose default alignment is right, 64 in each 192. The
// remainder keeps them in 32 bits.
pub fn right(number: u32) -> Case {
    few_cells(number % 4096 / 64 * 192 + 128 + number % 64, true)
}

// Returns the case with a number on a screen of 512 × 3 cells, with titles of up to 256 glyphs.
pub fn wide(number: u32) -> Case {
    let screen = Screen {
        columns: 512,
        rows: 3,
    };
    case(number, screen, 256, false, seed(number))
}
