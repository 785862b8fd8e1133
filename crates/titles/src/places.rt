// Placement of titles one after another, from left to right.
ghost use Rattle.std.specs.Prelude.{◌≡◌, ◌+◌};
ghost use Rattle.num.specs.Held.{held};
ghost use Rattle.titles.specs.PlacingExtra.{placed_width, placed_alignment, next_place};

use crate::Place;
use layout::Rect;
use text::{Alignment, head};

// Returns a title's width plus the column between titles, saturating at 65,535.
pub fn spaced(width: u16) -> u16
    ensures { result ≡ held (width + 1) }
{
    width.saturating_add(1)
}

impl Place {
    // Returns the width that the next title gets, given the width it needs.
    pub fn width(self, width: u16) -> u16
        ensures { result ≡ placed_width self width }
    {
        self.area.width.min(width).saturating_sub(self.offset)
    }

    // Returns the alignment of the next title: if titles are truncated, right while the offset is above 0, then left; otherwise
    // the one in its head, left if none.
    pub fn alignment(self, word: u32) -> Alignment
        ensures { result ≡ placed_alignment self word }
    {
        if self.truncates {
            if 0 < self.offset {
                return Alignment::Right;
            }
            return Alignment::Left;
        }
        head::resolve(word, Alignment::Left)
    }

    // Returns the place after a title of this width.
    pub fn next(self, width: u16) -> Place
        ensures { result ≡ next_place self width }
    {
        let old = self.area;
        let advance = spaced(width);
        let area = Rect {
            x: old.x.saturating_add(advance),
            y: old.y,
            width: old.width.saturating_sub(advance),
            height: old.height,
        };
        let offset = self.offset.saturating_sub(width).saturating_sub(1);
        Place {
            area,
            offset,
            truncates: self.truncates,
        }
    }
}
