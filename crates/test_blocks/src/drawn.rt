// Blocks to draw, with every set of borders, with and without a shadow.
ghost use Rattle.std.specs.Prelude.{◌<◌, ◌≤◌};
ghost use Rattle.test_blocks.specs.ScreensExtra.{Accepted};

use crate::areas::area;
use crate::many_titles::Manner;
use crate::shadows::{shadow, style};
use crate::titles::position_of;
use crate::words::four_on;
use crate::{Case, borders};
use block::Block;
use buffer::Screen;
use padding::Padding;
use test_texts::random::{below, next, seed};
use test_texts::texts::alignment_of;

// Returns the block with a number, made from x and the random numbers after it. Its style numbers are below `styles`, and its
// shadow's offsets are mostly at most `reach`.
pub fn block(number: u32, styles: u32, reach: u32, padding: Padding, x: u32) -> Block
    requires styles_nonzero { (0 < styles) × (styles ≤ 8) }
    requires reach_bound { reach ≤ 128 }
{
    let a = four_on(four_on(x));
    let b = next(a);
    Block {
        borders: borders::borders_of(number % 16),
        border_set: borders::border_set(x),
        border_style: style(a, styles),
        style: style(b, styles),
        padding: padding,
        titles_style: style(four_on(b), styles),
        titles_alignment: alignment_of(number / 64),
        titles_position: position_of(number / 192),
        shadow: shadow(number / 16 % 4, next(b), styles, reach),
    }
}

// Returns the case with a number on a screen, made from x and the random numbers after it.
fn case(number: u32, screen: Screen, reach: u32, x: u32) -> Case
    requires accepted { Accepted screen }
    requires reach_bound { reach ≤ 128 }
{
    let y = next(x);
    let styles = 1 + below(x, 8);
    Case {
        block: block(
            number,
            styles,
            reach,
            Padding::uniform(1),
            four_on(four_on(y)),
        ),
        area: area(y, screen),
        screen: Some(screen),
        manner: Manner {
            titles: 0,
            glyphs: 0,
            right: false,
            styles,
        },
        seed: x,
    }
}

// Returns the case with a number on a screen of up to 8 × 6 cells.
pub fn small(number: u32) -> Case {
    let a = seed(number);
    let b = next(a);
    let screen = Screen {
        columns: (1 + below(a, 8)) as u16,
        rows: (1 + below(b, 6)) as u16,
    };
    case(number, screen, 4, next(b))
}

// Returns the case with a number on a screen of 512 × 256 cells.
pub fn large(number: u32) -> Case {
    let screen = Screen {
        columns: 512,
        rows: 256,
    };
    case(number, screen, 128, seed(number))
}
