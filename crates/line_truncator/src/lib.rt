// Truncates one text line (reflow.rs: `LineTruncator`).
#![tactic(auto)]

ghost use Rattle.std.specs.Prelude.{◌≡◌, ◌<◌};
ghost use Rattle.text.specs.Line.{numbered, FewRecords};
ghost use Rattle.wrapping.specs.RunsExtra.{run_of};
ghost use Rattle.line_truncator.specs.Truncation.{offset_of, shown_from};

use text::Alignment;
use wrapping::{Rule, Run};

// Returns the horizontal offset of a line: only left lines are scrolled right (reflow.rs: `LineTruncator::set_horizontal_offset`).
#[tactic(auto, unfolding(crate::specs::Truncation::offset_of))]
fn horizontal_offset(column: u32, alignment: Alignment) -> u32
    ensures { result ≡ offset_of column alignment }
{
    match alignment {
        Alignment::Left => column,
        Alignment::Center | Alignment::Right => 0,
    }
}

// Returns the run of the glyphs shown, after those that the offset swallows (reflow.rs: the loop of `LineTruncator::next_line`).
// Whether a glyph is over-wide is asked only if it passes the limit.
fn shown_run(rule: Rule, offset: usize, records: &[u32]) -> Run
    requires { FewRecords records.now }
    ensures { result ≡ run_of (shown_from rule offset 0 (numbered rule.ambiguous 0 records.now)) }
{
    let mut offset = offset;
    let mut run = Run::empty();
    for (at, &record) in records.iter().enumerate() {
        let w = rule.width(record) as usize;
        if rule.limit < run.width + w {
            if rule.limit < w {
                continue;
            }
            return run;
        }
        if 0 < offset {
            if w <= offset {
                offset -= w;
                continue;
            }
            offset = 0;
        }
        run = run.push(at, w);
    }
    run
}

// Returns the line of the text line with these records, scrolled right by `column` (reflow.rs: `LineTruncator::next_line`).
pub fn truncate_line(rule: Rule, column: u32, alignment: Alignment, records: &[u32]) -> Run
    requires { FewRecords records.now }
    ensures { result ≡ run_of (shown_from rule (offset_of column alignment) 0 (numbered rule.ambiguous 0 records.now)) }
{
    let taken = horizontal_offset(column, alignment) as usize;
    shown_run(rule, taken, records)
}
