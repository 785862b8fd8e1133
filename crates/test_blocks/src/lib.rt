// Test blocks, each generated from its case number, and their parts: borders, shadows, titles, areas, and 64-bit words for styles
// and cells.
#![tactic(auto)]

pub mod areas;
mod axes;
mod borders;
pub mod drawn;
mod inner;
pub mod many_titles;
pub mod parts;
pub mod plain;
mod shadows;
mod titled;
pub mod titles;
pub mod words;

use block::Block;
use buffer::Screen;
use layout::Rect;
use many_titles::Manner;
use std::fmt;

// A test case, and the seed of titles, styles and cells. A case for the inner area has no screen, the manner's `titles` is the kind
// of its titles, and its styles are unused.
#[derive(Clone, Copy)]
pub struct Case {
    pub block: Block,
    pub area: Rect,
    pub screen: Option<Screen>,
    pub manner: Manner,
    pub seed: u32,
}

// A case's area and screen, for one whose answer differs.
impl fmt::Display for Case {
    fn fmt<W: fmt::Write>(&self, f: &mut fmt::Formatter<W>) -> fmt::Result {
        let area = self.area;
        write!(
            f,
            "area {} {} {} {}",
            area.x, area.y, area.width, area.height
        )?;
        match self.screen {
            Some(screen) => write!(f, ", screen {} {}", screen.columns, screen.rows),
            None => Ok(()),
        }
    }
}
