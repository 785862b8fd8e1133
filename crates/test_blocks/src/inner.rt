// Inner areas: every vertical axis with every kind of titles. Horizontal axes are random, and each occurs.
use crate::axes::{Axis, axis_of};
use crate::many_titles::Manner;
use crate::titles::position_of;
use crate::{Case, borders};
use block::{Block, Borders, Shadow};
use layout::Rect;
use padding::Padding;
use test_texts::random::{below, seed};
use text::{Alignment, TitlePosition};

// Returns a block with border symbols made from x and a default title position.
fn block(across: Axis, down: Axis, position: TitlePosition, x: u32) -> Block {
    let borders = Borders {
        top: down.before,
        right: across.after,
        bottom: down.after,
        left: across.before,
    };
    Block {
        borders: borders,
        border_set: borders::border_set(x),
        border_style: 0,
        style: 0,
        padding: Padding::new(
            across.padding,
            across.padding_after,
            down.padding,
            down.padding_after,
        ),
        titles_style: 0,
        titles_alignment: Alignment::Left,
        titles_position: position,
        shadow: Shadow::Absent,
    }
}

// Returns the case with a number.
pub fn case(number: u32) -> Case {
    let x = seed(number);
    let across = axis_of(below(x, 4900));
    let down = axis_of(number / 10);
    let area = Rect {
        x: across.place,
        y: down.place,
        width: across.size,
        height: down.size,
    };
    Case {
        block: block(across, down, position_of(number / 5), x),
        area: area,
        screen: None,
        manner: Manner {
            titles: number % 5,
            glyphs: 2,
            right: false,
            styles: 1,
        },
        seed: x,
    }
}
