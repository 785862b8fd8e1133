// Draws and measures the notice of an opening of the packed form, for `preview`; also its pages and the widths of the symbols
// in its cells.
#![tactic(auto)]

pub mod paging;
pub mod widths;

ghost use Rattle.std.specs.Prelude.{◌≡◌, length, replicate};
ghost use Rattle.layout.specs.Rect.{meet};
ghost use Rattle.buffer.specs.Drawing.{area_of};
ghost use Rattle.buffer.specs.Screen.{screen_of};
ghost use Rattle.draw_notice.specs.Call.{call_of};
ghost use Rattle.draw_notice.specs.Pair.{pair_cells};
ghost use Rattle.count_pages.specs.Call.{answer_of as pagesAnswer};
ghost use Rattle.flat.specs.FlatExtra.{area_from, block_from};
ghost use Rattle.preview_sheet.specs.SheetExtra.{notice_at, call_at, pair_answer, opening_read, widened_opening, nothing_set, lines_in, fitting_of};

use buffer::Screen;
use flat::{FlatArea, FlatBlock, FlatText};
use notice::{AmbiguousWidth, Block, DrawCounts, Notice, PageCounts, Rect, Wrap};
use preview_file::Opening;
use refuse::Refusal;

// Size of a notice's inner area, and count of its lines.
#[derive(Clone, Copy)]
pub struct Measure {
    pub width: u16,
    pub height: u16,
    pub lines: u32,
}

// Returns the notice with scroll row `first`.
fn notice_at(opening: Opening, first: u16) -> Notice
    ensures { result ≡ notice_at opening first }
{
    let settings = FlatText {
        scroll: first,
        ..opening.text
    };
    settings.notice(opening.block)
}

// Returns the opening with its ambiguous glyphs read wide, if so asked. `wide` is no AmbiguousWidth: without it the opening keeps
// its own reading.
pub fn read_as(opening: Opening, wide: bool) -> Opening
    ensures { result ≡ opening_read wide opening }
{
    if !wide {
        return opening;
    }
    let text = FlatText {
        ambiguous: 2,
        ..opening.text
    };
    Opening { text, ..opening }
}

// Returns the opening with the symbols of its block replaced by their widths.
pub fn widened(opening: Opening) -> Opening
    ensures { result ≡ widened_opening opening }
{
    let block = widths::widened_block(opening.block);
    Opening { block, ..opening }
}

// Returns the answer of `pages` on the notice: all its inputs are checked, and nothing is drawn.
pub fn checked(
    opening: Opening,
    styles: &[u64],
    titles: &[u32],
    text: &[u32],
    cells: &[u64],
) -> Result<PageCounts, Refusal>
    ensures { let call = call_at opening opening.text.scroll styles.now titles.now text.now cells.now in
        result ≡ pagesAnswer call }
{
    let settings = opening.text;
    let area = Rect::from(opening.area);
    let notice = notice_at(opening, settings.scroll);
    let columns = u32::from(opening.columns);
    let rows = u32::from(opening.rows);
    notice::pages(columns, rows, cells, styles, text, titles, area, notice)
}

// Draws the frame of a notice, then its text into the area that the frame answers. It stops at a frame that is refused: who wants the
// lowest cause of both calls asks `checked` first.
fn draw_both(
    columns: u32,
    rows: u32,
    cells: &mut [u64],
    styles: &[u64],
    text: &[u32],
    titles: &[u32],
    area: Rect,
    notice: Notice,
) -> Result<DrawCounts, Refusal>
    ensures { let call = call_of columns rows cells.old styles.now text.now titles.now area notice in
        (result ≡ pair_answer call) × (cells.new ≡ pair_cells call) }
{
    let ambiguous = notice.ambiguous;
    let inner = notice::draw_frame(
        columns,
        rows,
        cells,
        styles,
        titles,
        ambiguous,
        area,
        notice.style,
        notice.block,
    )?;
    let settings = notice.text_settings();
    notice::draw_text(columns, rows, cells, styles, text, inner, settings)
}

// Fills the cells with `blank` and draws the notice from line `first`.
pub fn draw(
    opening: Opening,
    first: u16,
    blank: u64,
    styles: &[u64],
    titles: &[u32],
    text: &[u32],
    cells: &mut [u64],
) -> Result<DrawCounts, Refusal>
    ensures { let blanks = replicate (length cells.old) blank in
        let call = call_at opening first styles.now titles.now text.now blanks in
        (result ≡ pair_answer call) × (cells.new ≡ pair_cells call) }
{
    let area = Rect::from(opening.area);
    let notice = notice_at(opening, first);
    let columns = u32::from(opening.columns);
    let rows = u32::from(opening.rows);
    cells.fill(blank);
    draw_both(columns, rows, cells, styles, text, titles, area, notice)
}

// Returns a block with nothing set, which adds no rows to the lines.
fn no_block() -> Block
    ensures { result ≡ block_from nothing_set }
{
    let flat = FlatBlock {
        top_left: 0,
        top_right: 0,
        bottom_left: 0,
        bottom_right: 0,
        vertical_left: 0,
        vertical_right: 0,
        horizontal_top: 0,
        horizontal_bottom: 0,
        shadow_symbol: 0,
        shadow_x: 0,
        shadow_y: 0,
        padding_left: 0,
        padding_right: 0,
        padding_top: 0,
        padding_bottom: 0,
        border_top: 0,
        border_right: 0,
        border_bottom: 0,
        border_left: 0,
        border_style: 0,
        style: 0,
        titles_style: 0,
        titles_alignment: 0,
        titles_position: 0,
        shadow: 0,
        shadow_style: 0,
    };
    Block::from(flat)
}

// Returns the intersection of an area and a screen.
fn met(area: FlatArea, columns: u16, rows: u16) -> Rect
    ensures { result ≡ meet (area_from area) (area_of (screen_of columns rows)) }
{
    let screen = Screen { columns, rows };
    Rect::from(area).intersection(screen.area())
}

// Counts the lines at an area's width.
fn lines_in(
    wrap: Wrap,
    inside: Rect,
    text: &[u32],
    ambiguous: AmbiguousWidth,
) -> Result<Measure, Refusal>
    ensures { result ≡ lines_in ambiguous wrap text.now inside }
{
    let lines = notice::line_count(text, ambiguous, &[0u32; 0], no_block(), wrap, inside.width)?;
    Ok(Measure {
        width: inside.width,
        height: inside.height,
        lines,
    })
}

// Returns the size of the inner area, and the count of lines at its width.
pub fn measured(opening: Opening, titles: &[u32], text: &[u32]) -> Result<Measure, Refusal>
    ensures { result ≡ fitting_of opening titles.now text.now }
{
    let area = opening.area;
    let settings = opening.text;
    let met = met(area, opening.columns, opening.rows);
    let inside = notice::inner(Block::from(opening.block), titles, met)?;
    let ambiguous = flat::ambiguous_named(settings.ambiguous);
    lines_in(settings.named_wrap(), inside, text, ambiguous)
}
