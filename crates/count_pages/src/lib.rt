// The call `pages`: the inner area of a notice on its screen, its lines and its pages. Unlike `inner`, which takes the area as
// given, it first takes the intersection of area and screen, as drawing does: paging by its height skips no line.
#![tactic(auto)]

ghost use Rattle.std.specs.Prelude.{◌≡◌, ◌<◌, ◌^◌, length};
ghost use Rattle.text.specs.Line.{Opens, FewRecords};
ghost use Rattle.paragraph.specs.Notice.{settings_of, notice_lines};
ghost use Rattle.draw_notice.specs.Call.{call_of};
ghost use Rattle.pages.specs.Pages.{page_count};
ghost use Rattle.count_pages.specs.Call.{answer_of};

use check_settings::screen;
use draw_notice::draw_notice_verdict;
use layout::Rect;
use line_composer::Wrap;
use paragraph::Notice;
use refuse::Refusal;
use text::line;
use wrapping::Rule;

// Inner area of a notice on its screen, its composed lines at the inner width, and its pages at the inner height.
#[derive(Clone, Copy)]
pub struct PageCounts {
    pub inner: Rect,
    pub lines: u32,
    pub pages: u32,
}

// Counts the composed lines of a notice at a width above 0, at which each text line gives one line if unwrapped.
fn count_at(notice: Notice, width: u16, text: &[u32]) -> usize
    requires { FewRecords text.now × Opens text.now × (0 < width) }
    ensures { result ≡ length (notice_lines (settings_of notice) text.now width) }
{
    let alignment = notice.alignment;
    let wrap = notice.wrap;
    let ambiguous = notice.ambiguous;
    let Wrap::On { trim } = wrap else {
        return line::count_text_lines(text);
    };
    let rule = Rule {
        limit: width as usize,
        trim,
        ambiguous,
    };
    count_lines::count_lines(rule, alignment, text)
}

// Returns the number of pages that lines make at a height above 0, rounded up.
fn page_count(lines: u32, height: u16) -> u32
    requires { (lines < 2 ^ 16) × (0 < height) }
    ensures { result ≡ page_count lines height }
{
    (lines + (height as u32 - 1)) / height as u32
}

// Counts the lines and pages of a notice. Takes the inputs of `draw_frame` and `draw_text` together, of whose cells only the count
// matters, and is refused for causes 1 to 7: exactly if one of the two is.
#[tactic(auto, unfolding(crate::specs::Call::answer_of))]
pub fn pages(
    columns: u32,
    rows: u32,
    cells: &[u64],
    styles: &[u64],
    text: &[u32],
    titles: &[u32],
    area: Rect,
    notice: Notice,
) -> Result<PageCounts, Refusal>
    ensures { let call = call_of columns rows cells.now styles.now text.now titles.now area notice in
        result ≡ answer_of call }
{
    draw_notice_verdict(columns, rows, cells, styles, text, titles, area, notice)?;
    let screen = screen::screen_size(columns, rows);
    let inner = paragraph::inner_area(screen, titles, notice.block, area);
    if inner.is_empty() {
        return Ok(PageCounts {
            inner,
            lines: 0,
            pages: 0,
        });
    }
    let lines = count_at(notice, inner.width, text) as u32;
    Ok(PageCounts {
        inner,
        lines,
        pages: page_count(lines, inner.height),
    })
}
