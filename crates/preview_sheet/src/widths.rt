// Replaces the symbols of a notice by their widths: drawn like the notice, each cell then holds the width of its symbol, or the blank
// symbol where a halved glyph is drawn. Of that 3 bits are read, which are 0: it covers no other cell.
ghost use Rattle.std.specs.Prelude.{◌≡◌};
ghost use Rattle.preview_sheet.specs.WidthsExtra.{widened, widened_block, with_width, changed_by};

use flat::FlatBlock;
use text::{AmbiguousWidth, glyph, head};

// Returns a glyph with its width, as read, as symbol and as width; a head is returned unchanged.
fn widened_record(word: u32, ambiguous: AmbiguousWidth) -> u32
    ensures { result ≡ widened ambiguous word }
{
    if head::is_head(word) {
        return word;
    }
    let width = glyph::width(word, ambiguous);
    glyph::pack(width, width, glyph::is_whitespace(word), glyph::style(word))
}

// Copies records to the start of `wide`, as many as fit, with widths as symbols. By index, as is `mark`: a loop over
// `iter_mut().zip(..)` has no name for the whole slice that it changes, and its proof didn't close.
pub fn widen(records: &[u32], ambiguous: AmbiguousWidth, wide: &mut [u32])
    ensures { wide.new ≡ changed_by (λ old word. widened ambiguous word) wide.old records.now }
{
    for i in 0..records.len().min(wide.len()) {
        wide[i] = widened_record(records[i], ambiguous);
    }
}

// Returns the block with all its symbols replaced by 1, the width of each.
pub fn widened_block(block: FlatBlock) -> FlatBlock
    ensures { result ≡ widened_block block }
{
    FlatBlock {
        top_left: 1,
        top_right: 1,
        bottom_left: 1,
        bottom_right: 1,
        vertical_left: 1,
        vertical_right: 1,
        horizontal_top: 1,
        horizontal_bottom: 1,
        shadow_symbol: 1,
        ..block
    }
}

// Returns a cell with the symbol of `wide`, a width, in the bits that drawing never touches.
fn with_width(cell: u64, wide: u64) -> u64
    ensures { result ≡ with_width cell wide }
{
    cell::set_untouched(cell::symbol(wide) % 8, cell)
}

// Writes the widths in `wide` into the bits of the cells that drawing never touches.
pub fn mark(cells: &mut [u64], wide: &[u64])
    ensures { cells.new ≡ changed_by with_width cells.old wide.now }
{
    for i in 0..wide.len().min(cells.len()) {
        cells[i] = with_width(cells[i], wide[i]);
    }
}
