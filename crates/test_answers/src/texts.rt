// Checksums of the port's answers on texts.
ghost use Rattle.std.specs.Prelude.{◌≡◌, ◌^◌, ◌<◌};
ghost use Rattle.text.specs.Line.{Opens, FewRecords};
ghost use Rattle.line_composer.specs.declared.Method.TheVariants.{Truncate};
ghost use Rattle.line_composer.specs.Lines.{lines};
ghost use Rattle.test_answers.specs.TextsExtra.{counts_sum, with_line, lines_sum};

use line_composer::{LineComposer, Method, WrappedLine};
use refuse::ACCEPTED;
use tally::TallyCounts;
use test_sums::with_number;
use test_texts::Case;
use text::Alignment;
use wrapping::Rule;

// Returns the checksum of a tally's six counts.
#[tactic(auto, unfolding(crate::specs::TextsExtra::counts_sum))]
fn sum_counts(counts: TallyCounts) -> u32
    ensures { result ≡ counts_sum counts }
{
    let lines = with_number(0, counts.lines);
    let placed = with_number(lines, counts.placed);
    let clipped = with_number(placed, counts.clipped);
    let zero_width = with_number(clipped, counts.zero_width);
    let over_wide = with_number(zero_width, counts.over_wide);
    with_number(over_wide, counts.dropped)
}

// Returns a checksum extended by a composed line.
fn with_line(sum: u32, line: WrappedLine) -> u32
    requires { (line.first < 2 ^ 32) × (line.end < 2 ^ 32) × (line.width < 2 ^ 32) }
    ensures { result ≡ with_line sum line }
{
    let first = with_number(sum, line.first as u32);
    let end = with_number(first, line.end as u32);
    let width = with_number(end, line.width as u32);
    with_number(width, u32::from(line.alignment))
}

// Returns the checksum of a text's truncated lines, scrolled right by `column`: of each, then of their count.
fn sum_truncated(rule: Rule, column: u32, default_alignment: Alignment, text: &[u32]) -> u32
    requires { FewRecords text.now × Opens text.now }
    ensures { result ≡ lines_sum (lines rule (Truncate column) default_alignment text.now) }
{
    let mut composer = LineComposer::new(rule, Method::Truncate(column), text);
    let mut sum = 0;
    let mut count = 0;
    // By `let .. else`, as document 01 asks of a next composed line.
    loop {
        let Some(line) = composer.next(rule, default_alignment, text) else {
            return with_number(sum, count);
        };
        sum = with_line(sum, line);
        count += 1;
    }
}

// Returns the checksum of the list of wrapped lines, for which `list` has room.
pub fn wrapped(case: Case, text: &[u32], list: &mut [u64]) -> Option<u32> {
    let n = list_lines::list_lines(
        text,
        case.ambiguous,
        case.default_alignment,
        case.limit,
        case.trim,
        list,
    )
    .ok()?;
    Some(test_sums::sum_entries(list.get(..n)?))
}

// Returns the checksum of a text's tally.
pub fn counts(case: Case, text: &[u32]) -> Option<u32> {
    let counts = tally::tally(text, case.ambiguous, case.limit, case.trim).ok()?;
    Some(sum_counts(counts))
}

// Pulls truncated lines from the composer, as no call lists them; refuses a text that a call would refuse.
pub fn truncated(case: Case, text: &[u32]) -> Option<u32> {
    check_records::line_verdict(ACCEPTED, text, case.limit).ok()?;
    let rule = Rule {
        limit: usize::from(case.limit),
        trim: case.trim,
        ambiguous: case.ambiguous,
    };
    Some(sum_truncated(rule, case.column, case.default_alignment, text))
}
