// The call `list_lines`: writes the composed lines of a wrapped text to a list.
#![tactic(auto)]

ghost use Rattle.std.specs.Prelude.{◌≡◌, ◌++◌, map, ◌+◌, ◌^◌, ◌≤◌, ◌<◌, length, drop};
ghost use Rattle.text.specs.Line.{Opens};
ghost use Rattle.line_composer.specs.declared.Method.TheVariants.{WordWrap};
ghost use Rattle.line_composer.specs.Lines.{lines};
ghost use Rattle.line_composer.specs.Marks.{marked_lines};
ghost use Rattle.entry.specs.Entry.{listed};
ghost use Rattle.list_lines.specs.Call.{call_of, answer_of, list_after};

use check_settings::limits;
use line_composer::{LineComposer, Method};
use refuse::{ACCEPTED, Refusal, refuse_if};
use text::{Alignment, AmbiguousWidth};
use wrapping::Rule;

// Writes the composed lines of a text to a list that is long enough. A line is written when the next one is known: it is marked, as
// the last of its text line, if the next one is of another text line, or there is none.
fn write_lines(rule: Rule, default_alignment: Alignment, text: &[u32], list: &mut [u64])
    requires text_len_bound { (length text.now < 2 ^ 15) × Opens text.now × (rule.limit + 11 < 2 ^ 16) }
    requires text_in_bounds { length (lines rule WordWrap default_alignment text.now) ≤ length list.old }
    ensures { let count = length (lines rule WordWrap default_alignment text.now) in
        let all = marked_lines rule WordWrap default_alignment text.now in
        list.new ≡ map listed all ++ drop count list.old }
{
    let mut composer = LineComposer::new(rule, Method::WordWrap, text);
    let mut next = composer.next(rule, default_alignment, text);
    for item in list {
        let Some(line) = next else {
            return;
        };
        let from = composer.from;
        next = composer.next(rule, default_alignment, text);
        let last = next.is_none() || composer.from != from;
        *item = entry::pack(line, last);
    }
}

// Lists the composed lines of a text, counting them before the first entry is written. Refused for causes 3, 4, 8 and 9; a refused
// call changes no entry.
#[tactic(auto, unfolding(crate::specs::Call::answer_of, crate::specs::Call::list_after, crate::specs::Call::verdict_of, crate::specs::Call::causes_of, crate::specs::Call::lines_of, crate::specs::Call::marked_lines_of, refuse::specs::Causes::line_causes, refuse::specs::Causes::text_causes))]
pub fn list_lines(
    text: &[u32],
    ambiguous: AmbiguousWidth,
    default_alignment: Alignment,
    limit: u16,
    trim: bool,
    list: &mut [u64],
) -> Result<usize, Refusal>
    ensures { let call = call_of text.now ambiguous default_alignment limit trim list.old in
        (result ≡ answer_of call) × (list.new ≡ list_after call) }
{
    check_records::line_verdict(ACCEPTED, text, limit)?;
    let rule = Rule {
        limit: limit as usize,
        trim,
        ambiguous,
    };
    let count = count_lines::count_lines(rule, default_alignment, text);
    refuse_if(
        limits::list_too_short(list.len(), count),
        Refusal::ListLength,
    )?;
    write_lines(rule, default_alignment, text, list);
    Ok(count)
}
