// Checks of the records of a text and of titles: causes 3, 4, 5, cause 6 for glyphs, and the verdicts of calls with a text.
#![tactic(auto)]

ghost use Rattle.std.specs.Prelude.{◌≡◌, count_by};
ghost use Rattle.text.specs.Line.{not_opening};
ghost use Rattle.refuse.specs.Refusal.{first_cause};
ghost use Rattle.refuse.specs.Causes.{text_too_long, text_head_wrong, text_heads_wrong, titles_wrong, style_numbers_wrong, glyph_styles};
ghost use Rattle.refuse.specs.Causes.{text_causes, line_causes};
ghost use Rattle.refuse.specs.ScanExtra.{title_wrong, scan_wrong, glyph_no_style};

use check_settings::limits;
use refuse::{Ceilings, Refusal, refuse_if};
use text::line::Lines;
use text::{glyph, head};

// Cause 3: whether a text has too many records.
pub fn text_too_long(most: Ceilings, text: &[u32]) -> bool
    ensures { result ≡ text_too_long most text.now }
{
    most.records < text.len()
}

// Whether the first record, if any, isn't a head.
fn opens_without_head(records: &[u32]) -> bool
    ensures { result ≡ not_opening records.now }
{
    records.first().is_some_and(|first| !head::is_head(*first))
}

// Cause 4 for one record: whether it is a head whose zeros or position aren't 0.
fn head_wrong(word: u32) -> bool
    ensures { result ≡ text_head_wrong word }
{
    head::is_head(word) && (head::zeros(word) != 0 || head::position(word) != 0)
}

// Counts the wrong heads of a text. It doesn't stop at the first, and is a loop: so the compiler takes several records at a time
// (`filter` and `count` take twice as long).
fn wrong_heads(text: &[u32]) -> usize
    ensures { result ≡ count_by text_head_wrong text.now }
{
    let mut wrong = 0;
    for word in text {
        if head_wrong(*word) {
            wrong += 1;
        }
    }
    wrong
}

// Cause 4: whether a non-empty text doesn't open with a head, or a head's zeros or position aren't 0.
#[tactic(auto, using(refuse::proofs::Counts::any_counted), unfolding(refuse::specs::Causes::text_heads_wrong))]
pub fn text_heads_wrong(text: &[u32]) -> bool
    ensures { result ≡ text_heads_wrong text.now }
{
    opens_without_head(text) || 0 < wrong_heads(text)
}

// Returns the verdict of causes 3 and 4, for calls with a text.
#[tactic(auto, unfolding(refuse::specs::Causes::text_causes))]
pub fn text_verdict(most: Ceilings, text: &[u32]) -> Result<(), Refusal>
    ensures { result ≡ first_cause (text_causes most text.now) }
{
    refuse_if(text_too_long(most, text), Refusal::TextLength)?;
    refuse_if(text_heads_wrong(text), Refusal::TextHeads)
}

// Returns the verdict of causes 3, 4 and 8, for calls that compose the lines of a text at a limit.
#[tactic(auto, unfolding(refuse::specs::Causes::line_causes, refuse::specs::Causes::text_causes))]
pub fn line_verdict(most: Ceilings, text: &[u32], limit: u16) -> Result<(), Refusal>
    ensures { result ≡ first_cause (line_causes most text.now limit) }
{
    text_verdict(most, text)?;
    refuse_if(limits::limit_wrong(most, limit), Refusal::Limit)
}

// Cause 5 for one title: whether it has too many glyphs, position 3, or zeros that aren't 0.
#[tactic(auto, unfolding(refuse::specs::ScanExtra::title_wrong))]
fn title_wrong(most: Ceilings, head: u32, glyphs: usize) -> bool
    ensures { result ≡ title_wrong most head glyphs }
{
    most.title_glyphs < glyphs || head::position(head) == 3 || head::zeros(head) != 0
}

// Cause 5 for the titles one by one: whether there are too many, or one is wrong. It stops at the first that is wrong, and reads none
// past the most that are accepted.
#[tactic(auto, unfolding(refuse::specs::ScanExtra::scan_wrong))]
fn any_title_wrong(most: Ceilings, titles: &[u32]) -> bool
    ensures { result ≡ scan_wrong most titles.now }
{
    let mut lines = Lines::new(titles);
    for _ in 0..most.titles {
        let Some((head, glyphs)) = lines.next() else {
            return false;
        };
        if title_wrong(most, head, glyphs.len()) {
            return true;
        }
    }
    !lines.is_empty()
}

// Cause 5: whether non-empty titles don't open with a head, there are too many, or one is wrong.
#[tactic(auto, using(refuse::proofs::TitleScan::titles_by_lines), unfolding(refuse::specs::ScanExtra::scan_wrong))]
pub fn titles_wrong(most: Ceilings, titles: &[u32]) -> bool
    ensures { result ≡ titles_wrong most titles.now }
{
    opens_without_head(titles) || any_title_wrong(most, titles)
}

// Cause 6 for one record: whether it is a glyph whose style number isn't below the count of styles.
fn glyph_has_no_style(count: usize, word: u32) -> bool
    ensures { result ≡ glyph_no_style count word }
{
    !head::is_head(word) && count <= glyph::style(word) as usize
}

// Counts the glyphs whose style number isn't below the count of styles; a loop, as `wrong_heads` is.
fn glyphs_without_style(count: usize, records: &[u32]) -> usize
    ensures { result ≡ count_by (glyph_no_style count) records.now }
{
    let mut wrong = 0;
    for word in records {
        if glyph_has_no_style(count, *word) {
            wrong += 1;
        }
    }
    wrong
}

// Cause 6 for a text or for titles: whether a glyph's style number isn't below the count of styles.
#[tactic(auto, using(refuse::proofs::Passes::glyphs_counted))]
pub fn glyph_styles_wrong(count: usize, records: &[u32]) -> bool
    ensures { result ≡ style_numbers_wrong count (glyph_styles records.now) }
{
    0 < glyphs_without_style(count, records)
}
