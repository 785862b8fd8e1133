// The four parts of the cases, in order.
ghost use Rattle.std.specs.Prelude.{◌≤◌, length};

use crate::{Case, long, several, short};
use std::fmt;

#[derive(Clone, Copy)]
pub enum Part {
    Short,
    Ambiguous,
    Several,
    Long,
}

impl Part {
    pub const ALL: [Part; 4] = [Part::Short, Part::Ambiguous, Part::Several, Part::Long];

    // Returns the number of cases in a part.
    pub fn count(self) -> u32
        ensures { result ≤ 196080 }
    {
        match self {
            Part::Short => 196080,
            Part::Ambiguous => 93620,
            Part::Several => 60000,
            Part::Long => 400,
        }
    }

    // Writes the text of a case and returns the case.
    pub fn write_case(self, number: u32, text: &mut [u32]) -> Case
        requires { 16384 ≤ length text.old }
        ensures { result.length ≤ length text.new }
    {
        match self {
            Part::Short => short::write_case(text, number),
            Part::Ambiguous => short::write_ambiguous_case(text, number),
            Part::Several => several::write_case(text, number),
            Part::Long => long::write_case(text, number),
        }
    }
}

impl fmt::Display for Part {
    fn fmt<W: fmt::Write>(&self, f: &mut fmt::Formatter<W>) -> fmt::Result {
        f.write_str(match self {
            Part::Short => "short lines",
            Part::Ambiguous => "ambiguous lines",
            Part::Several => "several lines",
            Part::Long => "long texts",
        })
    }
}
