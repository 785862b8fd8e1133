// Settings of a block, its inner area and the space that its frame takes (block.rs).
#![tactic(auto)]

use padding::Padding;
use text::{Alignment, TitlePosition};

pub mod causes;
pub mod inner_area;
pub mod titled;

// Sides that have a border.
#[derive(Clone, Copy)]
pub struct Borders {
    pub top: bool,
    pub right: bool,
    pub bottom: bool,
    pub left: bool,
}

// Border symbols (ratatui's `border::Set`).
#[derive(Clone, Copy)]
pub struct BorderSet {
    pub top_left: u32,
    pub top_right: u32,
    pub bottom_left: u32,
    pub bottom_right: u32,
    pub vertical_left: u32,
    pub vertical_right: u32,
    pub horizontal_top: u32,
    pub horizontal_bottom: u32,
}

// Effect of a shadow on its cells after its style: none, or a symbol (block/shadow.rs: `Effect`).
#[derive(Clone, Copy)]
pub enum Effect {
    Overlay,
    Symbol(u32),
}

// Shadow of a block, if any: effect, style number, and offset from the block in columns and rows (block/shadow.rs: `Shadow`).
// An enum that holds an enum, as document 01 asks; else it would be an Option.
#[derive(Clone, Copy)]
pub enum Shadow {
    Absent,
    Present {
        effect: Effect,
        style: u8,
        x: i32,
        y: i32,
    },
}

// Settings of a block (block.rs: `Block`). Its titles are passed beside it, as records.
#[derive(Clone, Copy)]
pub struct Block {
    pub borders: Borders,
    pub border_set: BorderSet,
    pub border_style: u8,
    pub style: u8,
    pub padding: Padding,
    pub titles_style: u8,
    pub titles_alignment: Alignment,
    pub titles_position: TitlePosition,
    pub shadow: Shadow,
}

// Cells that a frame takes at the two ends of a row or column.
#[derive(Clone, Copy)]
pub struct Space {
    pub before: u16,
    pub after: u16,
}
