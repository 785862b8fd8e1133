// The parts of the cases, in order.
use crate::{Case, drawn};
use std::fmt;

#[derive(Clone, Copy)]
pub enum Part {
    Narrow,
    Small,
    Large,
}

impl Part {
    pub const ALL: [Part; 3] = [Part::Narrow, Part::Small, Part::Large];

    // Returns the number of cases in a part.
    pub fn count(self) -> u32 {
        match self {
            Part::Narrow => 30000,
            Part::Small => 30000,
            Part::Large => 480,
        }
    }

    // Returns the case with a number.
    pub fn case(self, number: u32) -> Case {
        match self {
            Part::Narrow => drawn::narrow(number),
            Part::Small => drawn::small(number),
            Part::Large => drawn::large(number),
        }
    }
}

impl fmt::Display for Part {
    fn fmt<W: fmt::Write>(&self, f: &mut fmt::Formatter<W>) -> fmt::Result {
        f.write_str(match self {
            Part::Narrow => "narrow screens",
            Part::Small => "small screens",
            Part::Large => "large screens",
        })
    }
}
