// Checksums of the port's answers on notices.
ghost use Rattle.std.specs.Prelude.{◌≡◌};
ghost use Rattle.test_answers.specs.NoticesExtra.{counts_sum};

use crate::blocks;
use draw_frame::draw_frame;
use draw_text::draw_text;
use layout::Rect;
use render_lines::DrawCounts;
use test_blocks::areas::cells_of;
use test_blocks::many_titles;
use test_blocks::words::{four_on, write_words};
use test_notices::{Case, texts};
use test_sums::with_number;
use test_texts::random::{next, seed};

// Checksum of an answer with its counts.
#[derive(Clone, Copy)]
pub struct Drawing {
    pub sum: u32,
    pub counts: DrawCounts,
}

// A case with its styles, text and titles.
#[derive(Clone, Copy)]
struct Given<'a> {
    case: Case,
    styles: &'a [u64],
    text: &'a [u32],
    titles: &'a [u32],
}

// Returns the checksum of the rows drawn and the glyphs placed and clipped.
#[tactic(auto, unfolding(crate::specs::NoticesExtra::counts_sum))]
fn sum_counts(counts: DrawCounts) -> u32
    ensures { result ≡ counts_sum counts }
{
    let rows = with_number(0, counts.rows);
    let placed = with_number(rows, counts.placed);
    with_number(placed, counts.clipped)
}

// Draws the text into an area and returns the checksum of its counts and of all cells.
fn sum_text(given: Given, area: Rect, cells: &mut [u64]) -> Option<Drawing> {
    let screen = given.case.screen;
    let notice = given.case.notice;
    let columns = u32::from(screen.columns);
    let rows = u32::from(screen.rows);
    let settings = notice.text_settings();
    let counts = draw_text(
        columns,
        rows,
        cells,
        given.styles,
        given.text,
        area,
        settings,
    )
    .ok()?;
    let sum = with_number(sum_counts(counts), test_sums::sum_entries(cells));
    Some(Drawing { sum, counts })
}

// Draws the frame of a notice and returns its inner area.
fn frame_of(given: Given, cells: &mut [u64]) -> Option<Rect> {
    let screen = given.case.screen;
    let notice = given.case.notice;
    let columns = u32::from(screen.columns);
    let rows = u32::from(screen.rows);
    draw_frame(
        columns,
        rows,
        cells,
        given.styles,
        given.titles,
        notice.ambiguous,
        given.case.area,
        notice.style,
        notice.block,
    )
    .ok()
}

// Writes the styles, text, titles and cells of a case, then draws. None too if the case's screen is larger than `cells`.
fn drawn<D: FnOnce(Given, &mut [u64]) -> Option<Drawing>>(
    case: Case,
    cells: &mut [u64],
    draw: D,
) -> Option<Drawing>
    requires { D.IsAlwaysCallable draw }
{
    let cells = cells.get_mut(..cells_of(case.screen))?;
    let mut styles = [0u64; 64];
    let mut text = [0u32; 1024];
    let mut titles = [0u32; 4112];
    let x = next(next(case.seed));
    write_words(&mut styles, style::REMOVE_PLACE, seed(case.seed));
    write_words(cells, 1, seed(next(case.seed)));
    let length = texts::write_text(&mut text, case.records, seed(seed(next(seed(x)))));
    let count = many_titles::write_many(&mut titles, case.manner, four_on(seed(x)));
    let given = Given {
        case,
        styles: &styles,
        text: &text[..length],
        titles: &titles[..count],
    };
    draw(given, cells)
}

// Draws the frame and returns the checksum of the inner area that it answers and of all cells; its counts are 0.
pub fn frame(case: Case, cells: &mut [u64]) -> Option<Drawing> {
    drawn(case, cells, |given, cells| {
        let inner = frame_of(given, cells)?;
        let sum = with_number(blocks::sum_area(inner), test_sums::sum_entries(cells));
        let counts = DrawCounts {
            rows: 0,
            placed: 0,
            clipped: 0,
        };
        Some(Drawing { sum, counts })
    })
}

// Draws the text alone, into the case's area.
pub fn text(case: Case, cells: &mut [u64]) -> Option<Drawing> {
    drawn(
        case,
        cells,
        |given, cells| sum_text(given, case.area, cells),
    )
}

// Draws the frame, then the text into the area that it answers.
pub fn both(case: Case, cells: &mut [u64]) -> Option<Drawing> {
    drawn(case, cells, |given, cells| {
        let inner = frame_of(given, cells)?;
        sum_text(given, inner, cells)
    })
}
