// The calls `line_count` and `line_width`: paragraph.rs: `Paragraph::line_count` and `Paragraph::line_width`.
#![tactic(auto)]

ghost use Rattle.std.specs.Prelude.{◌≡◌};
ghost use Rattle.measure.specs.LineWidth.{call_of as width_call, verdict_of as widthVerdict, answer_of as widthAnswer};
ghost use Rattle.measure.specs.LineCount.{call_of as count_call, verdict_of as countVerdict, answer_of as countAnswer};

use block::Block;
use check_settings::limits;
use line_composer::Wrap;
use refuse::{ACCEPTED, Refusal, refuse_if};
use text::AmbiguousWidth;

// Returns the verdict of `line_width`'s checks, lowest cause first.
#[tactic(auto, unfolding(crate::specs::LineWidth::verdict_of, crate::specs::LineWidth::causes_of, refuse::specs::Causes::text_causes, check_block::specs::Causes::frame_causes))]
fn line_width_verdict(
    text: &[u32],
    ambiguous: AmbiguousWidth,
    titles: &[u32],
    block: Block,
) -> Result<(), Refusal>
    ensures { result ≡ widthVerdict (width_call text.now ambiguous titles.now block) }
{
    check_records::text_verdict(ACCEPTED, text)?;
    check_block::frame_verdict(ACCEPTED, titles, block)
}

// Returns the verdict of `line_count`'s checks, lowest cause first.
#[tactic(auto, unfolding(crate::specs::LineCount::verdict_of, crate::specs::LineCount::causes_of, crate::specs::LineWidth::verdict_of, crate::specs::LineWidth::causes_of, refuse::specs::Causes::text_causes, check_block::specs::Causes::frame_causes))]
fn line_count_verdict(
    text: &[u32],
    ambiguous: AmbiguousWidth,
    titles: &[u32],
    block: Block,
    wrap: Wrap,
    width: u16,
) -> Result<(), Refusal>
    ensures { result ≡ countVerdict (count_call text.now ambiguous titles.now block wrap width) }
{
    line_width_verdict(text, ambiguous, titles, block)?;
    refuse_if(limits::limit_wrong(ACCEPTED, width), Refusal::Limit)
}

// Counts the rows that a text and its frame need; `width` isn't reduced by the frame. Refused for causes 3, 4, 5, 7 and 8.
// (paragraph.rs: `Paragraph::line_count`)
#[tactic(auto, unfolding(crate::specs::LineCount::answer_of, measure_text::specs::Measures::line_count))]
pub fn line_count(
    text: &[u32],
    ambiguous: AmbiguousWidth,
    titles: &[u32],
    block: Block,
    wrap: Wrap,
    width: u16,
) -> Result<u32, Refusal>
    ensures { result ≡ countAnswer (count_call text.now ambiguous titles.now block wrap width) }
{
    line_count_verdict(text, ambiguous, titles, block, wrap, width)?;
    if width == 0 {
        return Ok(0);
    }
    let count = measure_text::lines_at(wrap, width, text, ambiguous);
    Ok(count as u32 + measure_text::both(block.vertical_space(titles)))
}

// Returns the width of a text's widest line plus the block's horizontal space. Refused for causes 3, 4, 5 and 7.
// (paragraph.rs: `Paragraph::line_width`)
#[tactic(auto, unfolding(crate::specs::LineWidth::answer_of, measure_text::specs::Measures::line_width))]
pub fn line_width(
    text: &[u32],
    ambiguous: AmbiguousWidth,
    titles: &[u32],
    block: Block,
) -> Result<u32, Refusal>
    ensures { result ≡ widthAnswer (width_call text.now ambiguous titles.now block) }
{
    line_width_verdict(text, ambiguous, titles, block)?;
    let columns = measure_text::widest_line(text, ambiguous);
    let sum = columns + measure_text::both(block.horizontal_space());
    Ok(sum)
}
