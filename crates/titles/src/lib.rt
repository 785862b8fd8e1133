// Selection and placement of a block's titles. The crate `render_titles` draws them.
#![tactic(auto)]

use block::Block;
use layout::Rect;
use text::{Alignment, AmbiguousWidth, TitlePosition};

mod filtered_titles;
pub mod heads;
pub mod places;

// A block with its titles, as records, how their ambiguous glyphs are read, and the styles that its numbers name.
// No ghost fields: render_right_titles and render_titles don't ask both of Opens and SymbolsFit.
#[derive(Clone, Copy)]
pub struct TitledBlock<'a> {
    pub styles: &'a [u64],
    pub titles: &'a [u32],
    pub ambiguous: AmbiguousWidth,
    pub block: Block,
}

// The titles with this position and alignment, each given or default.
#[derive(Clone, Copy)]
pub struct Group {
    pub position: TitlePosition,
    pub alignment: Alignment,
}

// Place of the next title: the remaining titles area, the columns still to be truncated on the left, and whether titles are
// truncated, which then decides their alignment.
#[derive(Clone, Copy)]
pub struct Place {
    pub area: Rect,
    pub offset: u16,
    pub truncates: bool,
}
