// The inner area of a block, and the space that its frame takes.
ghost use Rattle.std.specs.Prelude.{◌≡◌, ◌+◌, ◌-◌};
ghost use Rattle.num.specs.Held.{held};
ghost use Rattle.block.specs.Inner.{moved_in, taken, at_top, at_bottom, inner_of, space_of, horizontal_space, vertical_space};

use crate::{Block, Space};
use layout::Rect;
use text::TitlePosition;

// Returns the inner area's x or y: moved by 1, not past the end, if a border or title is present, then by the padding.
fn inner_start(present: bool, place: u16, end: u16, padding: u16) -> u16
    ensures { result ≡ held (moved_in present place end + padding) }
{
    if present {
        return place.saturating_add(1).min(end).saturating_add(padding);
    }
    place.saturating_add(padding)
}

// Returns the inner area's width or height: the size less a border or title at each end, less both paddings.
fn inner_size(before: bool, after: bool, size: u16, padding: u16, padding_after: u16) -> u16
    ensures { result ≡ size - taken before - taken after - held (padding + padding_after) }
{
    let bare = size.saturating_sub(u16::from(before));
    let inside = bare.saturating_sub(u16::from(after));
    inside.saturating_sub(padding.saturating_add(padding_after))
}

// Returns the cells that a frame takes at the two ends of a row or column.
fn space(before: bool, after: bool, padding: u16, padding_after: u16) -> Space
    ensures { result ≡ space_of before after padding padding_after }
{
    Space {
        before: padding.saturating_add(u16::from(before)),
        after: padding_after.saturating_add(u16::from(after)),
    }
}

impl Block {
    // Whether the block has a top border or a top title.
    fn present_at_top(self, titles: &[u32]) -> bool
        ensures { result ≡ at_top self titles.now }
    {
        self.borders.top || self.has_title_at_position(titles, TitlePosition::Top)
    }

    // Whether the block has a bottom border or a bottom title.
    fn present_at_bottom(self, titles: &[u32]) -> bool
        ensures { result ≡ at_bottom self titles.now }
    {
        self.borders.bottom || self.has_title_at_position(titles, TitlePosition::Bottom)
    }

    // Returns the inner area of any rectangle (block.rs: `Block::inner`). The settings are checked by the call `inner`.
    #[tactic(auto, unfolding(crate::specs::Inner::inner_of))]
    pub fn inner(self, titles: &[u32], area: Rect) -> Rect
        ensures { result ≡ inner_of self titles.now area }
    {
        let borders = self.borders;
        let padding = self.padding;
        let top = self.present_at_top(titles);
        let bottom = self.present_at_bottom(titles);
        Rect {
            x: inner_start(borders.left, area.x, area.right(), padding.left),
            y: inner_start(top, area.y, area.bottom(), padding.top),
            width: inner_size(
                borders.left,
                borders.right,
                area.width,
                padding.left,
                padding.right,
            ),
            height: inner_size(top, bottom, area.height, padding.top, padding.bottom),
        }
    }

    // Returns the columns that the frame takes at the left and right (block.rs: `Block::horizontal_space`).
    #[tactic(auto, unfolding(crate::specs::Inner::horizontal_space))]
    pub fn horizontal_space(self) -> Space
        ensures { result ≡ horizontal_space self }
    {
        let borders = self.borders;
        let padding = self.padding;
        space(borders.left, borders.right, padding.left, padding.right)
    }

    // Returns the rows that the frame takes at the top and bottom (block.rs: `Block::vertical_space`).
    #[tactic(auto, unfolding(crate::specs::Inner::vertical_space))]
    pub fn vertical_space(self, titles: &[u32]) -> Space
        ensures { result ≡ vertical_space self titles.now }
    {
        let padding = self.padding;
        let top = self.present_at_top(titles);
        let bottom = self.present_at_bottom(titles);
        space(top, bottom, padding.top, padding.bottom)
    }
}
