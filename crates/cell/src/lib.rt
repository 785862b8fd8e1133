// Cell, 64 bits: symbol 21 | foreground 8 | background 8 | modifiers 9 | 18 bits never touched.
// Each field has its function, as its place and its size differ: a generic one would take both and be no plainer.
#![tactic(auto)]

ghost use Rattle.std.specs.Prelude.{◌≡◌, cond, ◌-◌, ◌<◌, ◌^◌};
ghost use Rattle.std.specs.Int.Bits.{bit_and, bit_or};
ghost use Rattle.cell.specs.Cell.{Cell, cell_from, cell_packed, blank_cell, with_symbol, with_untouched, appearance_of, styled};

use style::{COLOURS, MODIFIERS};

// The blank symbol.
pub const BLANK_SYMBOL: u64 = 32;

// Place value of a field's lowest bit. The bits never touched are below the modifiers.
const SYMBOL_PLACE: u64 = 1 << 43;

const FOREGROUND_PLACE: u64 = 1 << 35;

const BACKGROUND_PLACE: u64 = 1 << 27;

const MODIFIERS_PLACE: u64 = 1 << 18;

// Mask of all nine modifiers.
const ALL_MODIFIERS: u64 = MODIFIERS - 1;

pub fn symbol(cell: u64) -> u64
    ensures { result ≡ (cell_from cell).symbol }
{
    cell / SYMBOL_PLACE
}

pub fn foreground(cell: u64) -> u64
    ensures { result ≡ (cell_from cell).foreground }
{
    cell / FOREGROUND_PLACE % COLOURS
}

pub fn background(cell: u64) -> u64
    ensures { result ≡ (cell_from cell).background }
{
    cell / BACKGROUND_PLACE % COLOURS
}

pub fn modifiers(cell: u64) -> u64
    ensures { result ≡ (cell_from cell).modifiers }
{
    cell / MODIFIERS_PLACE % MODIFIERS
}

pub fn untouched(cell: u64) -> u64
    ensures { result ≡ (cell_from cell).untouched }
{
    cell % MODIFIERS_PLACE
}

// Returns a cell with the blank symbol, other fields 0.
pub fn blank() -> u64
    ensures { result ≡ blank_cell }
{
    BLANK_SYMBOL * SYMBOL_PLACE
}

// Replaces the cell's symbol (`Cell::set_symbol`). A glyph's symbol has 21 bits; cause 7 refuses larger ones in settings.
pub fn set_symbol(symbol: u64, cell: u64) -> u64
    requires { symbol < 2 ^ 21 }
    ensures { result ≡ with_symbol symbol cell }
{
    symbol * SYMBOL_PLACE + cell % SYMBOL_PLACE
}

// Replaces the bits that drawing never touches; they are free for the caller's use.
pub fn set_untouched(untouched: u64, cell: u64) -> u64
    requires { untouched < 2 ^ 18 }
    ensures { result ≡ with_untouched untouched cell }
{
    cell / MODIFIERS_PLACE * MODIFIERS_PLACE + untouched
}

// Returns only the colours and modifiers of a cell: symbol and untouched bits are 0.
pub fn appearance(cell: u64) -> u64
    ensures { result ≡ appearance_of cell }
{
    cell % SYMBOL_PLACE / MODIFIERS_PLACE * MODIFIERS_PLACE
}

// Returns the style's colour if it gives one, else the cell's.
fn colour(given: bool, styled: u64, found: u64) -> u64
    requires { (styled < 2 ^ 8) × (found < 2 ^ 8) }
    ensures { (result ≡ cond given styled found) × (result < 2 ^ 8) }
{
    if given { styled } else { found }
}

// Sets the add bits, then clears the remove bits.
fn modified(found: u64, add: u64, remove: u64) -> u64
    requires { (found < 2 ^ 9) × (add < 2 ^ 9) × (remove < 2 ^ 9) }
    ensures { (result ≡ bit_and (bit_or found add) (2 ^ 9 - 1 - remove)) × (result < 2 ^ 9) }
{
    (found | add) & (ALL_MODIFIERS - remove)
}

// Packs these fields into a cell.
pub fn pack(symbol: u64, foreground: u64, background: u64, modifiers: u64, untouched: u64) -> u64
    requires { (symbol < 2 ^ 21) × (foreground < 2 ^ 8) × (background < 2 ^ 8) × (modifiers < 2 ^ 9) × (untouched < 2 ^ 18) }
    ensures { result ≡ cell_packed (record {
      symbol = symbol;
      foreground = foreground;
      background = background;
      modifiers = modifiers;
      untouched = untouched;
    }) }
{
    symbol * SYMBOL_PLACE
        + foreground * FOREGROUND_PLACE
        + background * BACKGROUND_PLACE
        + modifiers * MODIFIERS_PLACE
        + untouched
}

// Applies a style (`Cell::set_style`): sets the given colours, then the add bits, then clears the remove bits.
pub fn set_style(style: u64, cell: u64) -> u64
    ensures { result ≡ styled style cell }
{
    let foreground_set = colour(
        style::foreground_given(style),
        style::foreground(style),
        foreground(cell),
    );
    let background_set = colour(
        style::background_given(style),
        style::background(style),
        background(cell),
    );
    let modifiers_set = modified(modifiers(cell), style::add(style), style::remove(style));
    pack(
        symbol(cell),
        foreground_set,
        background_set,
        modifiers_set,
        untouched(cell),
    )
}
