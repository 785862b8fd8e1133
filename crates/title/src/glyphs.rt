// Writing of a title line on a row of cells.
ghost use Rattle.std.specs.Prelude.{◌≡◌, length};
ghost use Rattle.buffer.specs.Drawing.{changed};
ghost use Rattle.title_glyphs.specs.TitleGlyphs.{glyphs_of_title};
ghost use Rattle.title.specs.Title.{line_start, hidden_columns, title_line};

use text::{Alignment, AmbiguousWidth};

// Returns the columns of `whole` that are left beside `part`, if the alignment is right, else 0: the start column of a line of width
// `part`, and the number of hidden columns of a line of width `whole`.
fn columns_before(alignment: Alignment, part: u16, whole: u16) -> u16
    ensures start { result ≡ line_start alignment part whole }
    ensures hidden { result ≡ hidden_columns alignment whole part }
{
    match alignment {
        Alignment::Left | Alignment::Center => 0,
        Alignment::Right => whole.saturating_sub(part),
    }
}

// Writes a title line on a row of w cells, passing the slice from its start column to `write_glyphs`.
pub fn write_title_line(
    row: &mut [u64],
    styles: &[u64],
    alignment: Alignment,
    w: u16,
    glyphs: &[u32],
    ambiguous: AmbiguousWidth,
)
    requires { w ≡ length row.old }
    ensures { let line = title_line styles.now alignment w (glyphs_of_title ambiguous glyphs.now) in
        row.new ≡ changed line row.old }
{
    let t = crate::line_width_u16(glyphs, ambiguous);
    let hidden = columns_before(alignment, w, t) as usize;
    let start = columns_before(alignment, t, w) as usize;
    title_glyphs::write_glyphs(&mut row[start..], styles, hidden, glyphs, ambiguous);
}
