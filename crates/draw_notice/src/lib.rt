// The checks of the calls that take a whole notice, frame and text: causes 1 to 7, in the order of the combined drawing.
#![tactic(auto)]

ghost use Rattle.std.specs.Prelude.{◌≡◌};
ghost use Rattle.refuse.specs.Causes.{style_numbers_wrong};
ghost use Rattle.draw_notice.specs.Call.{call_of, notice_styles, verdict_of};

use check_settings::screen;
use layout::Rect;
use paragraph::Notice;
use refuse::{ACCEPTED, Refusal, refuse_if};

// Whether a style number of the notice, a text glyph, the block or a title glyph isn't below the count of styles (cause 6).
#[tactic(auto, unfolding(crate::specs::Call::notice_styles))]
fn style_numbers_wrong(count: usize, text: &[u32], titles: &[u32], notice: Notice) -> bool
    ensures { result ≡ style_numbers_wrong count (notice_styles notice text.now titles.now) }
{
    draw_text::style_numbers_wrong(count, text, notice.text_settings())
        || check_block::style_numbers_wrong(count, titles, notice.block)
}

// Returns the verdict of the checks of a whole notice, lowest cause first.
#[tactic(auto, unfolding(crate::specs::Call::verdict_of, crate::specs::Call::causes_of, refuse::specs::Causes::screen_causes, refuse::specs::Causes::text_causes))]
pub fn draw_notice_verdict(
    columns: u32,
    rows: u32,
    cells: &[u64],
    styles: &[u64],
    text: &[u32],
    titles: &[u32],
    area: Rect,
    notice: Notice,
) -> Result<(), Refusal>
    ensures { let call = call_of columns rows cells.now styles.now text.now titles.now area notice in
        result ≡ verdict_of call }
{
    screen::screen_verdict(ACCEPTED, columns, rows, cells.len(), styles)?;
    check_records::text_verdict(ACCEPTED, text)?;
    refuse_if(
        check_records::titles_wrong(ACCEPTED, titles),
        Refusal::Titles,
    )?;
    let no_style = style_numbers_wrong(styles.len(), text, titles, notice);
    refuse_if(no_style, Refusal::StyleNumber)?;
    refuse_if(notice.block.symbols_wrong(), Refusal::Symbol)
}
