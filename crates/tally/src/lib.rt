// The call `tally`: counts of a text's composed lines and glyphs.
#![tactic(auto)]

mod tallying;

ghost use Rattle.std.specs.Prelude.{◌≡◌};
ghost use Rattle.tally.specs.Call.{call_of, answer_of};

use refuse::{ACCEPTED, Refusal};
use text::AmbiguousWidth;
use wrapping::Rule;

// Counts of a text's composed lines, and of its glyphs by kind.
#[derive(Clone, Copy)]
pub struct TallyCounts {
    pub lines: u32,
    pub placed: u32,
    pub clipped: u32,
    pub zero_width: u32,
    pub over_wide: u32,
    pub dropped: u32,
}

// Counts of a text's glyphs and of the over-wide ones among them.
#[derive(Clone, Copy)]
pub struct TextGlyphCounts {
    pub glyphs: u32,
    pub over_wide: u32,
}

// Tallies a text at a limit. Refused for causes 3, 4 and 8.
#[tactic(auto, unfolding(crate::specs::Call::answer_of, crate::specs::Call::verdict_of, crate::specs::Call::causes_of))]
pub fn tally(
    text: &[u32],
    ambiguous: AmbiguousWidth,
    limit: u16,
    trim: bool,
) -> Result<TallyCounts, Refusal>
    ensures { result ≡ answer_of (call_of text.now ambiguous limit trim) }
{
    check_records::line_verdict(ACCEPTED, text, limit)?;
    let rule = Rule {
        limit: limit as usize,
        trim,
        ambiguous,
    };
    Ok(tallying::text_counts(rule, text))
}
