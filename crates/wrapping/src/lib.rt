// Wrapping of a text line: the rule, and runs of records, which replace the pending graphemes of reflow.rs.
#![tactic(auto)]

mod runs;

ghost use Rattle.std.specs.Prelude.{◌≡◌, ◌≤◌, min};
ghost use Rattle.text.specs.Record.{width_of};
ghost use Rattle.wrapping.specs.RunsExtra.{fitting_of};

use text::glyph::WIDEST;
use text::{AmbiguousWidth, glyph};

// Line width limit, whether lines are trimmed, and how ambiguous glyphs are read.
#[derive(Clone, Copy)]
pub struct Rule {
    pub limit: usize,
    pub trim: bool,
    pub ambiguous: AmbiguousWidth,
}

impl Rule {
    // Returns the width of a glyph as the rule reads it.
    pub fn width(self, word: u32) -> u32
        ensures { (result ≡ width_of self.ambiguous word) × (result ≤ 6) }
    {
        let ambiguous = self.ambiguous;
        glyph::width(word, ambiguous)
    }

    // Returns the largest width code that is a width and within the limit.
    fn widest_plain(self) -> usize
        ensures { result ≡ min self.limit 6 }
    {
        self.limit.min(WIDEST)
    }

    // Returns the width of a glyph as the rule reads it, or none if it is over-wide. Most codes are widths within the limit; the
    // setting is read only for the others.
    #[tactic(auto, using(crate::proofs::Fittings::fittings))]
    pub fn fitting(self, word: u32) -> Option<usize>
        ensures { result ≡ fitting_of self word }
    {
        let code = glyph::width_code(word) as usize;
        if code <= self.widest_plain() {
            return Some(code);
        }
        let w = self.width(word) as usize;
        if self.limit < w {
            return None;
        }
        Some(w)
    }
}

// Consecutive glyphs of a text line, over-wide ones between them left out: the first record, one past the last, and the sum of
// the widths. A run without a glyph has end 0. All fields are `usize`: with a shorter one the compiler would also copy the
// padding between fields.
#[derive(Clone, Copy)]
pub struct Run {
    pub first: usize,
    pub end: usize,
    pub width: usize,
}
