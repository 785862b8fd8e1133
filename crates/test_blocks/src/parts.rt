// The parts of the cases, in order.
use crate::{Case, drawn, inner, titled};
use std::fmt;

#[derive(Clone, Copy)]
pub enum Part {
    Inner,
    Small,
    Large,
    Titled,
    Wide,
    Right,
}

impl Part {
    // Returns the number of cases in a part.
    pub fn count(self) -> u32 {
        match self {
            Part::Inner => 49000,
            Part::Small => 40000,
            Part::Large => 48,
            Part::Titled => 48000,
            Part::Wide => 1536,
            Part::Right => 4096,
        }
    }

    // Returns the case with a number.
    pub fn case(self, number: u32) -> Case {
        match self {
            Part::Inner => inner::case(number),
            Part::Small => drawn::small(number),
            Part::Large => drawn::large(number),
            Part::Titled => titled::small(number),
            Part::Wide => titled::wide(number),
            Part::Right => titled::right(number),
        }
    }
}

impl fmt::Display for Part {
    fn fmt<W: fmt::Write>(&self, f: &mut fmt::Formatter<W>) -> fmt::Result {
        f.write_str(match self {
            Part::Inner => "inner",
            Part::Small => "blocks, small screens",
            Part::Large => "blocks, large screens",
            Part::Titled => "titles, small screens",
            Part::Wide => "titles, wide screens",
            Part::Right => "right titles alone",
        })
    }
}
