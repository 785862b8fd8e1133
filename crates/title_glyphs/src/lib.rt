// Writing of a title line's glyphs on a slice of a row (part of ratatui's `Line::render`).
#![tactic(auto)]

ghost use Rattle.std.specs.Prelude.{◌≡◌, ◌+◌, ◌^◌, ◌≤◌, ◌<◌, length};
ghost use Rattle.text.specs.Record.{width_of};
ghost use Rattle.text.specs.Line.{glyph_from, starts_from};
ghost use Rattle.buffer.specs.Drawing.{changed};
ghost use Rattle.title_glyphs.specs.TitleGlyphs.{glyphs_of_title, until_overrun, title_glyph_on, title_glyphs_on};

use buffer::Ink;
use text::{AmbiguousWidth, glyph};

// Writes a glyph that starts at `column` of its line, unless it starts in the hidden columns or has width 0.
#[tactic(auto, using(crate::proofs::OneGlyph::one_glyph))]
fn write_glyph(
    row: &mut [u64],
    styles: &[u64],
    hidden: usize,
    column: usize,
    word: u32,
    ambiguous: AmbiguousWidth,
)
    requires { column + width_of ambiguous word ≤ hidden + length row.old }
    ensures { let change = title_glyph_on styles.now hidden (record { start = column; glyph = glyph_from ambiguous 0 word }) in
        row.new ≡ changed change row.old }
{
    if column < hidden {
        return;
    }
    if glyph::width(word, ambiguous) == 0 {
        return;
    }
    let i = column - hidden;
    let style = buffer::style_at(styles, glyph::style(word) as u8);
    let ink = Ink::Both(glyph::symbol(word) as u64, style);
    row[i] = buffer::ink_cell(ink, row[i]);
}

// Writes the glyphs of a line on the cells from its start column, stopping at the first that overruns them.
pub fn write_glyphs(
    row: &mut [u64],
    styles: &[u64],
    hidden: usize,
    glyphs: &[u32],
    ambiguous: AmbiguousWidth,
)
    requires { hidden + length row.old < 2 ^ 32 }
    ensures { let starts = starts_from 0 (glyphs_of_title ambiguous glyphs.now) in
        let change = title_glyphs_on styles.now hidden (until_overrun (hidden + length row.old) starts) in
        row.new ≡ changed change row.old }
{
    let end = hidden + row.len();
    let mut column = 0;
    for word in glyphs {
        let next = column + glyph::width(*word, ambiguous) as usize;
        if end < next {
            return;
        }
        write_glyph(row, styles, hidden, column, *word, ambiguous);
        column = next;
    }
}
