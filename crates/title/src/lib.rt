// Drawing of one title in its area (ratatui's `Line::render`, whose meaning document 01 gives).
#![tactic(auto)]

mod glyphs;

ghost use Rattle.std.specs.Prelude.{◌≡◌, length};
ghost use Rattle.layout.specs.Rect.{right_of};
ghost use Rattle.buffer.specs.Drawing.{drawn};
ghost use Rattle.buffer.specs.PartsExtra.{in_row};
ghost use Rattle.title_glyphs.specs.TitleGlyphs.{glyphs_of_title};
ghost use Rattle.title.specs.Title.{title_line_width, title_line, title_in};
ghost use Rattle.title.specs.FittingExtra.{TitleArea};

use buffer::{Ink, Screen};
use layout::Rect;
use text::{Alignment, AmbiguousWidth};

// Returns the width of a title line, saturating at 65,535 (block.rs: `Block::line_width_u16`).
#[tactic(auto, using(crate::proofs::Widths::adding))]
pub fn line_width_u16(glyphs: &[u32], ambiguous: AmbiguousWidth) -> u16
    ensures { result ≡ title_line_width (glyphs_of_title ambiguous glyphs.now) }
{
    let mut width: u16 = 0;
    for word in glyphs {
        width = width.saturating_add(text::glyph::width(*word, ambiguous) as u16);
    }
    width
}

// Draws a title line in its area, passing the slice of its cells to `write_title_line`.
fn render_title_line(
    screen: Screen,
    cells: &mut [u64],
    styles: &[u64],
    area: Rect,
    alignment: Alignment,
    glyphs: &[u32],
    ambiguous: AmbiguousWidth,
)
    requires { TitleArea screen (length cells.old) area }
    ensures { let line = title_line styles.now alignment area.width (glyphs_of_title ambiguous glyphs.now) in
        let drawing = in_row area.x (right_of area) area.y line in
        cells.new ≡ drawn screen.columns drawing cells.old }
{
    let row = (area.y as usize) * (screen.columns as usize);
    let start = row + (area.x as usize);
    let end = row + (area.right() as usize);
    glyphs::write_title_line(
        &mut cells[start..end],
        styles,
        alignment,
        area.width,
        glyphs,
        ambiguous,
    );
}

// Draws a title in its area: the titles style, then the title line.
pub fn render_title(
    screen: Screen,
    cells: &mut [u64],
    styles: &[u64],
    style: u8,
    area: Rect,
    alignment: Alignment,
    glyphs: &[u32],
    ambiguous: AmbiguousWidth,
)
    requires { TitleArea screen (length cells.old) area }
    ensures { let drawing = title_in styles.now style area alignment (glyphs_of_title ambiguous glyphs.now) in
        cells.new ≡ drawn screen.columns drawing cells.old }
{
    let ink = Ink::Style(buffer::style_at(styles, style));
    buffer::paint_area(screen, cells, area, ink);
    render_title_line(screen, cells, styles, area, alignment, glyphs, ambiguous);
}
