// Pending part of the word wrapper's state, and the tests of `WordWrapper::process_input` in reflow.rs on it.
#![tactic(auto)]

ghost use Rattle.std.specs.Prelude.{◌≡◌, ◌&&◌, ◌+◌, ◌^◌, ◌<◌};
ghost use Rattle.pending.specs.TestsExtra.{gather_run, overflowing, joins, full_run, last_run};

use wrapping::{Rule, Run};

// Row, spaces and word, and whether the previous glyph was solid.
#[derive(Clone, Copy)]
pub struct Pending {
    pub row: Run,
    pub spaces: Run,
    pub word: Run,
    pub solid: bool,
}

impl Pending {
    // Returns row, then spaces if row isn't empty or trim is off, then word.
    #[tactic(auto, unfolding(crate::specs::TestsExtra::gather_run))]
    pub fn gather(self, trim: bool) -> Run
        requires { self.row.width + self.spaces.width + self.word.width < 2 ^ 32 }
        ensures { result ≡ gather_run trim self }
    {
        let row = self.row;
        let spaces = self.spaces;
        let word = self.word;
        if row.end == 0 {
            if trim {
                return word;
            }
            return spaces.append(word);
        }
        let long = row.append(spaces);
        long.append(word)
    }

    // Whether a word ends: whitespace after a solid glyph.
    fn ends_word(self, space: bool) -> bool
        ensures { result ≡ (space && self.solid) }
    {
        space && self.solid
    }

    // Whether spaces and word, with a glyph of width w, would overflow an empty row.
    #[tactic(auto, unfolding(crate::specs::TestsExtra::overflowing))]
    fn overflows(self, rule: Rule, w: usize) -> bool
        requires { self.row.width + self.spaces.width + self.word.width + w < 2 ^ 32 }
        ensures { result ≡ overflowing rule self w }
    {
        if rule.trim {
            return rule.limit < self.word.width + w || rule.limit < self.spaces.width + w;
        }
        rule.limit < self.word.width + self.spaces.width + w
    }

    // Step 2: whether spaces and word must be joined to row.
    #[tactic(auto, unfolding(crate::specs::TestsExtra::joins))]
    pub fn must_join(self, rule: Rule, w: usize, space: bool) -> bool
        requires { self.row.width + self.spaces.width + self.word.width + w < 2 ^ 32 }
        ensures { result ≡ joins rule self w space }
    {
        self.ends_word(space) || (self.row.end == 0 && self.overflows(rule, w))
    }

    // Step 3: whether row must be emitted.
    #[tactic(auto, unfolding(crate::specs::TestsExtra::full_run))]
    pub fn is_full(self, rule: Rule, w: usize) -> bool
        requires { self.row.width + self.spaces.width + self.word.width + w < 2 ^ 32 }
        ensures { result ≡ full_run rule self w }
    {
        rule.limit <= self.row.width
            || (0 < w && rule.limit <= self.row.width + self.spaces.width + self.word.width)
    }

    // Returns the line emitted at the text line's end, or none; `emitted` is whether the text line has emitted one before.
    #[tactic(auto, unfolding(crate::specs::TestsExtra::last_run))]
    pub fn last_line(self, trim: bool, emitted: bool) -> Option<Run>
        requires { self.row.width + self.spaces.width + self.word.width < 2 ^ 32 }
        ensures { result ≡ last_run trim emitted self }
    {
        let last = self.gather(trim);
        if last.end != 0 {
            return Some(last);
        }
        if self.spaces.end == 0 && emitted {
            return None;
        }
        Some(Run::empty())
    }
}
