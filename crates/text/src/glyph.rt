// Glyph, 32 bits: 0 | symbol 21 | width 3 | whitespace 1 | style 6.
ghost use Rattle.std.specs.Prelude.{◌≡◌, ◌≤◌, ◌<◌, ◌^◌};
ghost use Rattle.text.specs.Record.{symbol_of, width_code_of, ambiguous_cells, width_of, whitespace_of, style_of, glyph_record};

use crate::AmbiguousWidth;

// Number of values of a field.
pub const SYMBOLS: u32 = 1 << 21;

const WIDTHS: u32 = 1 << 3;

pub const STYLES: u32 = 1 << 6;

// Width code of an ambiguous glyph; those below it are widths.
const AMBIGUOUS: u32 = 7;

// Largest width.
pub const WIDEST: usize = 6;

// Place value of a field's lowest bit.
const SYMBOL_PLACE: u32 = 1 << 10;

const WIDTH_PLACE: u32 = 1 << 7;

const WHITESPACE_PLACE: u32 = 1 << 6;

pub fn symbol(glyph: u32) -> u32
    ensures { result ≡ symbol_of glyph }
{
    glyph / SYMBOL_PLACE % SYMBOLS
}

// The width field as it is packed; `width` reads it.
pub fn width_code(glyph: u32) -> u32
    ensures { result ≡ width_code_of glyph }
{
    glyph / WIDTH_PLACE % WIDTHS
}

// Returns the cells that an ambiguous glyph is read as.
fn ambiguous_cells(ambiguous: AmbiguousWidth) -> u32
    ensures { result ≡ ambiguous_cells ambiguous }
{
    match ambiguous {
        AmbiguousWidth::Narrow => 1,
        AmbiguousWidth::Wide => 2,
    }
}

// Returns the width of a glyph as read.
pub fn width(glyph: u32, ambiguous: AmbiguousWidth) -> u32
    ensures { (result ≡ width_of ambiguous glyph) × (result ≤ 6) }
{
    let code = width_code(glyph);
    if code == AMBIGUOUS {
        return ambiguous_cells(ambiguous);
    }
    code
}

pub fn is_whitespace(glyph: u32) -> bool
    ensures { result ≡ whitespace_of glyph }
{
    glyph / WHITESPACE_PLACE % 2 == 1
}

pub fn style(glyph: u32) -> u32
    ensures { result ≡ style_of glyph }
{
    glyph % STYLES
}

// Packs these fields into a glyph.
pub fn pack(symbol: u32, width: u32, whitespace: bool, style: u32) -> u32
    requires { (symbol < 2 ^ 21) × (width < 2 ^ 3) × (style < 2 ^ 6) }
    ensures { result ≡ glyph_record symbol width whitespace style }
{
    symbol * SYMBOL_PLACE + width * WIDTH_PLACE + u32::from(whitespace) * WHITESPACE_PLACE + style
}
