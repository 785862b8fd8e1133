// Test notices, each generated from its case number.
#![tactic(auto)]

ghost use Rattle.std.specs.Prelude.{◌≤◌};

mod drawn;
pub mod parts;
mod settings;
pub mod texts;

use buffer::Screen;
use layout::Rect;
use paragraph::Notice;
use std::fmt;
use test_blocks::many_titles::Manner;

// A test case: a text of at most `records` records, the titles and the number of the 64 styles that its block and titles use, and
// the seed of text, titles, styles and cells.
#[derive(Clone, Copy)]
pub struct Case {
    pub notice: Notice,
    pub area: Rect,
    pub screen: Screen,
    pub records: u32,
    pub manner: Manner,
    pub seed: u32,
    ghost some_records: { 2 ≤ records },
    ghost few_records: { records ≤ 1024 },
}

// A case's area and screen, for one whose answer differs.
impl fmt::Display for Case {
    fn fmt<W: fmt::Write>(&self, f: &mut fmt::Formatter<W>) -> fmt::Result {
        let area = self.area;
        let screen = self.screen;
        write!(
            f,
            "area {} {} {} {}",
            area.x, area.y, area.width, area.height
        )?;
        write!(f, ", screen {} {}", screen.columns, screen.rows)
    }
}
