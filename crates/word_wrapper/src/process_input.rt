// Methods of the word wrapper: each step takes the state and hands on the next one (document 01, 'Expected form in each place').
ghost use Rattle.std.specs.Prelude.{◌≡◌, ◌+◌, ◌-◌, ◌^◌, ◌≤◌, ◌<◌, length, get_or};
ghost use Rattle.text.specs.Line.{FewRecords};
ghost use Rattle.wrapping.specs.RunsExtra.{run_of, glyphs_in};
ghost use Rattle.word_wrapper.specs.StepsExtra.{new_wrapper, pending_of, join_run, join_if_due_run, emit_row_run, skip_glyph_run, append_glyph_run};
ghost use Rattle.word_wrapper.specs.StepsExtra.{append_or_drop_run, emit_or_append_run, step_run, close_run, finish_run};
ghost use Rattle.word_wrapper.specs.PullsExtra.{WrapperInvariant, PulledRun};

use crate::WordWrapper;
use pending::Pending;
use text::glyph;
use wrapping::{Rule, Run};

impl WordWrapper {
    // Returns the state before a text line's first glyph; limit 0 gives no line (reflow.rs: `WordWrapper::new`).
    pub fn new(rule: Rule) -> WordWrapper
        ensures { result ≡ new_wrapper rule }
    {
        let none = Run::empty();
        WordWrapper {
            row: none,
            spaces: none,
            word: none,
            solid: false,
            emitted: false,
            live: rule.limit != 0,
            at: 0,
        }
    }

    // Returns the pending part of the state.
    fn pending(self) -> Pending
        ensures { result ≡ pending_of self }
    {
        Pending {
            row: self.row,
            spaces: self.spaces,
            word: self.word,
            solid: self.solid,
        }
    }

    // Joins spaces and word to row.
    #[tactic(auto, unfolding(crate::specs::StepsExtra::join_run))]
    fn join(mut self, trim: bool) -> WordWrapper
        requires { self.row.width + self.spaces.width + self.word.width < 2 ^ 32 }
        ensures { result ≡ join_run trim self }
    {
        self.row = self.pending().gather(trim);
        self.spaces = Run::empty();
        self.word = Run::empty();
        self
    }

    // Step 2: joins spaces and word to row if the glyph requires it.
    #[tactic(auto, unfolding(crate::specs::StepsExtra::join_if_due_run))]
    fn join_if_due(self, rule: Rule, w: usize, space: bool) -> WordWrapper
        requires { self.row.width + self.spaces.width + self.word.width + w < 2 ^ 32 }
        ensures { result ≡ join_if_due_run rule self w space }
    {
        if self.pending().must_join(rule, w, space) {
            return self.join(rule.trim);
        }
        self
    }

    // Step 3 after row is emitted: empties row and drops spaces while they fit in its remaining width.
    #[tactic(auto, unfolding(crate::specs::StepsExtra::emit_row_run))]
    fn emit_row(mut self, rule: Rule, records: &[u32]) -> WordWrapper
        requires { (self.spaces.end ≤ length records.now) × (self.spaces ≡ run_of (glyphs_in rule records.now self.spaces)) }
        ensures { result ≡ emit_row_run rule records.now self }
    {
        let room = rule.limit.saturating_sub(self.row.width);
        self.row = Run::empty();
        self.spaces = self.spaces.after_fitting(records, rule, room);
        self.emitted = true;
        self
    }

    // Skips the glyph.
    #[tactic(auto, unfolding(crate::specs::StepsExtra::skip_glyph_run))]
    fn skip_glyph(mut self) -> WordWrapper
        requires { self.at + 1 < 2 ^ 64 }
        ensures { result ≡ skip_glyph_run self }
    {
        self.at += 1;
        self
    }

    // Step 4: appends the glyph to spaces or word.
    #[tactic(auto, unfolding(crate::specs::StepsExtra::append_glyph_run))]
    fn append_glyph(mut self, w: usize, space: bool) -> WordWrapper
        requires { (self.row.width + self.spaces.width + self.word.width + w < 2 ^ 32) × (self.at + 1 < 2 ^ 64) }
        ensures { result ≡ append_glyph_run self w space }
    {
        let at = self.at;
        self.at = at + 1;
        if space {
            self.spaces = self.spaces.push(at, w);
            self.solid = false;
            return self;
        }
        self.word = self.word.push(at, w);
        self.solid = true;
        self
    }

    // After an emit: drops a whitespace glyph if spaces is now empty, else appends the glyph.
    #[tactic(auto, unfolding(crate::specs::StepsExtra::append_or_drop_run))]
    fn append_or_drop(self, w: usize, space: bool) -> WordWrapper
        requires { (self.row.width + self.spaces.width + self.word.width + w < 2 ^ 32) × (self.at + 1 < 2 ^ 64) }
        ensures { result ≡ append_or_drop_run self w space }
    {
        if space && self.spaces.end == 0 {
            return self.skip_glyph();
        }
        self.append_glyph(w, space)
    }

    // Steps 3 and 4, after the join, for a glyph no wider than the limit: the next state and the line emitted, if any.
    #[tactic(auto, unfolding(crate::specs::StepsExtra::emit_or_append_run))]
    fn emit_or_append(
        self,
        rule: Rule,
        records: &[u32],
        w: usize,
        space: bool,
    ) -> (WordWrapper, Option<Run>)
        requires wrapper_invariant { WrapperInvariant rule records.now self }
        requires few_records { FewRecords records.now × (self.at < length records.now) × (w < 8) }
        ensures state { result.0 ≡ (emit_or_append_run rule records.now self w space).state }
        ensures line { result.1 ≡ (emit_or_append_run rule records.now self w space).line }
    {
        let row = self.row;
        if self.pending().is_full(rule, w) {
            let left = self.emit_row(rule, records);
            return (left.append_or_drop(w, space), Some(row));
        }
        (self.append_glyph(w, space), None)
    }

    // Processes the glyph at `at` (steps 1 to 4) and hands on the next state, and the line emitted, if any. `WordWrapper::process_input`
    // in reflow.rs: its loop body is here, the rest in `finish`.
    fn step(self, rule: Rule, records: &[u32]) -> (WordWrapper, Option<Run>)
        requires wrapper_invariant { WrapperInvariant rule records.now self }
        requires few_records { FewRecords records.now × (self.at < length records.now) }
        ensures state { result.0 ≡ (step_run rule records.now self (get_or records.now self.at 0)).state }
        ensures line { result.1 ≡ (step_run rule records.now self (get_or records.now self.at 0)).line }
    {
        let record = records[self.at];
        let space = glyph::is_whitespace(record);
        let Some(w) = rule.fitting(record) else {
            return (self.skip_glyph(), None);
        };
        self.join_if_due(rule, w, space)
            .emit_or_append(rule, records, w, space)
    }

    // Returns the state with no line remaining.
    #[tactic(auto, unfolding(crate::specs::StepsExtra::close_run))]
    pub fn close(mut self) -> WordWrapper
        ensures { result ≡ close_run self }
    {
        self.live = false;
        self
    }

    // Ends the text line: returns its last line, if one remains (reflow.rs: the end of `WordWrapper::process_input`).
    #[tactic(auto, unfolding(crate::specs::StepsExtra::finish_run))]
    fn finish(self, rule: Rule) -> (WordWrapper, Option<Run>)
        requires { self.row.width + self.spaces.width + self.word.width < 2 ^ 32 }
        ensures state { result.0 ≡ (finish_run rule self).state }
        ensures line { result.1 ≡ (finish_run rule self).line }
    {
        let last = self.pending().last_line(rule.trim, self.emitted);
        (self.close(), last)
    }

    // Returns the next composed line of the text line with these records, or none, and then none remains (reflow.rs:
    // `WordWrapper::next_line`).
    pub fn next_line(&mut self, rule: Rule, records: &[u32]) -> Option<Run>
        requires wrapper_invariant { WrapperInvariant rule records.now self.old }
        requires few_records { FewRecords records.now }
        ensures { PulledRun rule records.now self.old result self.new }
    {
        if self.live {
            // In a local, so that the compiler keeps its fields in registers; the index is the state's, and each step moves it on.
            let mut wrapper = *self;
            while wrapper.at < records.len() {
                let (next, line) = wrapper.step(rule, records);
                wrapper = next;
                if let Some(line) = line {
                    *self = wrapper;
                    return Some(line);
                }
            }
            let (closed, last) = wrapper.finish(rule);
            *self = closed;
            return last;
        }
        None
    }
}
