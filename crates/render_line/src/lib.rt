// Drawing of one composed line on a row of the text's area: paragraph.rs: `render_line` and `get_line_offset`.
#![tactic(auto)]

ghost use Rattle.std.specs.Prelude.{◌≡◌, ◌+◌, ◌≤◌, ◌<◌, length};
ghost use Rattle.text.specs.Line.{total, FewRecords};
ghost use Rattle.layout.specs.Rect.{right_of};
ghost use Rattle.buffer.specs.Drawing.{changed, drawn};
ghost use Rattle.buffer.specs.PartsExtra.{in_row};
ghost use Rattle.buffer.specs.PartsExtra.{AreaOnScreen};
ghost use Rattle.line_composer.specs.Lines.{line_at};
ghost use Rattle.line_composer.specs.ComposingExtra.{ReadsBack};
ghost use Rattle.render_line.specs.RenderLine.{line_offset, line_on, placed_in, clipped_in};

use buffer::Screen;
use layout::Rect;
use line_composer::WrappedLine;
use render_glyphs::GlyphCounts;
use text::Alignment;
use wrapping::Rule;

// Returns the start column of a line, given the widths of the area and of the line (paragraph.rs: `get_line_offset`).
#[tactic(auto, unfolding(crate::specs::RenderLine::line_offset))]
fn get_line_offset(alignment: Alignment, area: usize, line: usize) -> usize
    ensures { (result ≡ line_offset alignment area line) × (result ≤ area) }
{
    match alignment {
        Alignment::Left => 0,
        Alignment::Center => (area / 2).saturating_sub(line / 2),
        Alignment::Right => area.saturating_sub(line),
    }
}

// Writes a composed line on the cells of one row of the area.
pub fn write_line(
    row: &mut [u64],
    styles: &[u64],
    style: u8,
    rule: Rule,
    text: &[u32],
    line: WrappedLine,
) -> GlyphCounts
    requires first_le_end { (line.first ≤ line.end) × (line.end ≤ length text.now) × FewRecords text.now }
    requires width_value { line.width ≡ total (line_at rule text.now line).glyphs }
    ensures cells { let change = line_on styles.now style (length row.old) (line_at rule text.now line) in
        row.new ≡ changed change row.old }
    ensures placed { result.placed ≡ placed_in (length row.old) (line_at rule text.now line) }
    ensures clipped { result.clipped ≡ clipped_in (length row.old) (line_at rule text.now line) }
{
    let first = line.first;
    let end = line.end;
    let alignment = line.alignment;
    let start = get_line_offset(alignment, row.len(), line.width);
    render_glyphs::write_glyphs(&mut row[start..], styles, style, rule, &text[first..end])
}

// Draws a composed line on a row of the area, counted from 0 (paragraph.rs: `render_line`).
pub fn render_line(
    screen: Screen,
    cells: &mut [u64],
    styles: &[u64],
    style: u8,
    rule: Rule,
    text: &[u32],
    area: Rect,
    row: u16,
    line: WrappedLine,
) -> GlyphCounts
    requires reads_back { ReadsBack rule text.now line × FewRecords text.now × (row < area.height) }
    requires area_on_screen { AreaOnScreen screen (length cells.old) area }
    ensures cells { let drawing = line_on styles.now style area.width (line_at rule text.now line) in
        cells.new ≡ drawn screen.columns (in_row area.x (right_of area) (area.y + row) drawing) cells.old }
    ensures placed { result.placed ≡ placed_in area.width (line_at rule text.now line) }
    ensures clipped { result.clipped ≡ clipped_in area.width (line_at rule text.now line) }
{
    let start_of_row = (area.y as usize + row as usize) * (screen.columns as usize);
    let start = start_of_row + (area.x as usize);
    let end = start_of_row + (area.right() as usize);
    write_line(&mut cells[start..end], styles, style, rule, text, line)
}
