// Reads the fields of an opening.
ghost use Rattle.std.specs.Prelude.{◌≡◌, ◌≤◌, length};
ghost use Rattle.preview_file.specs.FileExtra.{opening_bytes, area_in, symbols_in, paddings_in, block_in, text_fields_in, opening_in};

use crate::numbers::{count, number_2, number_4, signed};
use crate::{Opening, Paddings, Symbols};
use flat::{FlatArea, FlatBlock, FlatText};

fn area(input: &[u8]) -> FlatArea
    requires { opening_bytes ≤ length input.now }
    ensures { result ≡ area_in input.now }
{
    FlatArea {
        x: number_2(input, 8),
        y: number_2(input, 10),
        width: number_2(input, 12),
        height: number_2(input, 14),
    }
}

#[tactic(auto, unfolding(crate::specs::FileExtra::symbols_in))]
fn symbols(input: &[u8]) -> Symbols
    requires { opening_bytes ≤ length input.now }
    ensures { result ≡ symbols_in input.now }
{
    Symbols {
        top_left: number_4(input, 16),
        top_right: number_4(input, 20),
        bottom_left: number_4(input, 24),
        bottom_right: number_4(input, 28),
        vertical_left: number_4(input, 32),
        vertical_right: number_4(input, 36),
        horizontal_top: number_4(input, 40),
        horizontal_bottom: number_4(input, 44),
        shadow: number_4(input, 48),
    }
}

#[tactic(auto, unfolding(crate::specs::FileExtra::paddings_in))]
fn paddings(input: &[u8]) -> Paddings
    requires { opening_bytes ≤ length input.now }
    ensures { result ≡ paddings_in input.now }
{
    Paddings {
        left: number_2(input, 60),
        right: number_2(input, 62),
        top: number_2(input, 64),
        bottom: number_2(input, 66),
    }
}

#[tactic(auto, unfolding(crate::specs::FileExtra::block_in))]
fn block(input: &[u8]) -> FlatBlock
    requires { opening_bytes ≤ length input.now }
    ensures { result ≡ block_in input.now }
{
    let symbols = symbols(input);
    let padding = paddings(input);
    FlatBlock {
        top_left: symbols.top_left,
        top_right: symbols.top_right,
        bottom_left: symbols.bottom_left,
        bottom_right: symbols.bottom_right,
        vertical_left: symbols.vertical_left,
        vertical_right: symbols.vertical_right,
        horizontal_top: symbols.horizontal_top,
        horizontal_bottom: symbols.horizontal_bottom,
        shadow_symbol: symbols.shadow,
        shadow_x: signed(number_4(input, 52)),
        shadow_y: signed(number_4(input, 56)),
        padding_left: padding.left,
        padding_right: padding.right,
        padding_top: padding.top,
        padding_bottom: padding.bottom,
        border_top: input[68],
        border_right: input[69],
        border_bottom: input[70],
        border_left: input[71],
        border_style: input[72],
        style: input[73],
        titles_style: input[74],
        titles_alignment: input[75],
        titles_position: input[76],
        shadow: input[77],
        shadow_style: input[78],
    }
}

// The form doesn't say how ambiguous glyphs are read: narrow, unless the program is told otherwise.
#[tactic(auto, unfolding(crate::specs::FileExtra::text_fields_in))]
fn text(input: &[u8]) -> FlatText
    requires { opening_bytes ≤ length input.now }
    ensures { result ≡ text_fields_in input.now }
{
    FlatText {
        scroll: number_2(input, 79),
        column: number_2(input, 81),
        style: input[83],
        text_style: input[84],
        alignment: input[85],
        wrap: input[86],
        ambiguous: 1,
    }
}

#[tactic(auto, unfolding(crate::specs::FileExtra::opening_in))]
pub fn opening(input: &[u8]) -> Opening
    requires { opening_bytes ≤ length input.now }
    ensures { result ≡ opening_in input.now }
{
    let area = area(input);
    let block = block(input);
    let text = text(input);
    Opening {
        columns: number_2(input, 4),
        rows: number_2(input, 6),
        area,
        block,
        text,
        styles: count(input, 87),
        titles: count(input, 89),
        records: count(input, 91),
    }
}
