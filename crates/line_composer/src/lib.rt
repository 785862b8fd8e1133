// Composes the lines of a whole text, one at a time (reflow.rs: `LineComposer`).
#![tactic(auto)]

ghost use Rattle.std.specs.Prelude.{◌≡◌, ◌+◌, ◌^◌, ◌<◌, length};
ghost use Rattle.text.specs.Line.{Opens, FewRecords};
ghost use Rattle.line_composer.specs.ComposersExtra.{MethodInvariant, PulledMethodRun};
ghost use Rattle.line_composer.specs.ComposingExtra.{line_of_run, Ready, Opened, Started, PulledLine};

use text::{Alignment, head, line};
use word_wrapper::WordWrapper;
use wrapping::{Rule, Run};

// A composed line: its first record, one past its last, its width and its alignment (reflow.rs: `WrappedLine`).
#[derive(Clone, Copy)]
pub struct WrappedLine {
    pub first: usize,
    pub end: usize,
    pub width: usize,
    pub alignment: Alignment,
}

// Whether a text is wrapped, trimmed or not, or truncated and scrolled right by `column` (paragraph.rs: `Wrap`).
#[derive(Clone, Copy)]
pub enum Wrap {
    Off { column: u16 },
    On { trim: bool },
}

// How lines are composed: wrapped, or truncated and scrolled right by a number of columns. Two methods, so no Option.
#[derive(Clone, Copy)]
pub enum Method {
    WordWrap,
    Truncate(u32),
}

// State of composing a text (reflow.rs: `LineComposer`): the current text line has the glyph records `from..to`. If lines are
// truncated, only the wrapper's `live` is used.
#[derive(Clone, Copy)]
pub struct LineComposer {
    pub method: Method,
    pub wrapper: WordWrapper,
    pub from: usize,
    pub to: usize,
    pub alignment: Alignment,
}

// Converts a run of the text line whose first glyph is record `from` to record numbers of the whole text. All composed lines are
// made here.
#[tactic(auto, unfolding(crate::specs::ComposingExtra::line_of_run))]
fn wrapped_line(from: usize, alignment: Alignment, run: Run) -> WrappedLine
    requires { (from + run.first < 2 ^ 64) × (from + run.end < 2 ^ 64) }
    ensures { result ≡ line_of_run from alignment run }
{
    if run.end == 0 {
        return WrappedLine {
            first: 0,
            end: 0,
            width: run.width,
            alignment,
        };
    }
    WrappedLine {
        first: from + run.first,
        end: from + run.end,
        width: run.width,
        alignment,
    }
}

// Returns the next composed line of the text line with these records, or none, and then none remains (reflow.rs:
// `LineComposer::next_line`).
fn next_line(
    method: Method,
    wrapper: &mut WordWrapper,
    rule: Rule,
    alignment: Alignment,
    records: &[u32],
) -> Option<Run>
    requires method_invariant { MethodInvariant rule method records.now wrapper.old }
    requires few_records { FewRecords records.now }
    ensures { PulledMethodRun rule method alignment records.now wrapper.old result wrapper.new }
{
    // Only one of the two methods changes the wrapper line by line: a trait or a closure for each would be no plainer.
    match method {
        Method::WordWrap => wrapper.next_line(rule, records),
        Method::Truncate(column) => {
            if wrapper.live {
                *wrapper = wrapper.close();
                return Some(line_truncator::truncate_line(rule, column, alignment, records));
            }
            None
        }
    }
}

impl LineComposer {
    // Returns the state before a text's first line.
    pub fn new(rule: Rule, method: Method, text: &[u32]) -> LineComposer
        requires { Opens text.now }
        ensures { Started rule method text.now result }
    {
        LineComposer {
            method,
            wrapper: WordWrapper::new(rule).close(),
            from: 0,
            to: 0,
            alignment: Alignment::Left,
        }
    }

    // Moves to the start of the text line whose head is at `at`.
    fn open(&mut self, rule: Rule, default_alignment: Alignment, text: &[u32], at: usize)
        requires { at < length text.now }
        ensures { Opened rule self.old.method default_alignment text.now at self.new }
    {
        let from = at + 1;
        let glyphs = line::line_length(&text[from..]);
        self.wrapper = WordWrapper::new(rule);
        self.from = from;
        self.to = from + glyphs;
        self.alignment = head::resolve(text[at], default_alignment);
    }

    // Returns the next composed line of the text, or none, and then none remains.
    pub fn next(
        &mut self,
        rule: Rule,
        default_alignment: Alignment,
        text: &[u32],
    ) -> Option<WrappedLine>
        requires ready { Ready rule text.now self.old }
        requires few_records { FewRecords text.now }
        ensures { PulledLine rule default_alignment text.now self.old result self.new }
    {
        // By `let .. else`, as document 01 asks of a next composed line.
        loop {
            let from = self.from;
            let to = self.to;
            let alignment = self.alignment;
            let records = &text[from..to];
            let Some(run) = next_line(self.method, &mut self.wrapper, rule, alignment, records)
            else {
                if text.len() <= to {
                    return None;
                }
                self.open(rule, default_alignment, text, to);
                continue;
            };
            return Some(wrapped_line(from, alignment, run));
        }
    }
}
