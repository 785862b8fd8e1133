// Test texts, each generated from its case number, so that another program can generate the same texts.
#![tactic(auto)]

mod long;
pub mod numbers;
pub mod parts;
pub mod random;
mod records;
mod several;
mod short;
pub mod texts;

use std::fmt;
use text::{Alignment, AmbiguousWidth};

// A test case. Its text is the first `length` records that `write_case` wrote. `trim` is for wrapped lines, `column` (horizontal
// scroll) for truncated ones; `ambiguous` is how ambiguous glyphs are read. `number` is the case's index in its part.
#[derive(Clone, Copy)]
pub struct Case {
    pub number: u32,
    pub length: usize,
    pub default_alignment: Alignment,
    pub limit: u16,
    pub trim: bool,
    pub column: u32,
    pub ambiguous: AmbiguousWidth,
}

// A case's settings, for one whose answer differs.
impl fmt::Display for Case {
    fn fmt<W: fmt::Write>(&self, f: &mut fmt::Formatter<W>) -> fmt::Result {
        let trimmed = if self.trim { "trimmed" } else { "not trimmed" };
        write!(f, "limit {}, column {}, {trimmed}", self.limit, self.column)
    }
}
