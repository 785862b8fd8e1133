// Block settings that change nothing.
use crate::borders;
use block::{Block, Shadow};
use padding::Padding;
use text::{Alignment, TitlePosition};

// Returns a block without borders, padding and shadow, its titles at the top left.
pub fn plain() -> Block {
    Block {
        borders: borders::borders_of(0),
        border_set: borders::border_set(0),
        border_style: 0,
        style: 0,
        padding: Padding::uniform(0),
        titles_style: 0,
        titles_alignment: Alignment::Left,
        titles_position: TitlePosition::Top,
        shadow: Shadow::Absent,
    }
}
