// Records of a text and of titles: glyphs, heads, and the lines that heads open.
#![tactic(auto)]

ghost use Rattle.std.specs.Prelude.{◌≡◌};
ghost use Rattle.text.specs.Alignment.{alignment_number, AlignmentOf, PositionOf};

pub mod glyph;
pub mod head;
pub mod line;

// Horizontal alignment of a line in its area.
#[derive(Clone, Copy, PartialEq, Eq)]
pub enum Alignment {
    Left,
    Center,
    Right,
}

// Edge of the block that a title is on (block.rs: `TitlePosition`).
#[derive(Clone, Copy, PartialEq, Eq)]
pub enum TitlePosition {
    Top,
    Bottom,
}

// How glyphs with the ambiguous width code are read (UAX 11): as one cell, or as two.
#[derive(Clone, Copy, PartialEq, Eq)]
pub enum AmbiguousWidth {
    Narrow,
    Wide,
}

// A number that names no case.
#[derive(Clone, Copy, PartialEq, Eq)]
pub struct Unnamed;

// The number of an alignment in packed records and entries.
impl From<Alignment> for u32 {
    ghost from_gives = { λ alignment number. number ≡ alignment_number alignment };

    fn from(alignment: Alignment) -> u32 {
        match alignment {
            Alignment::Left => 0,
            Alignment::Center => 1,
            Alignment::Right => 2,
        }
    }
}

impl TryFrom<u32> for Alignment {
    type Error = Unnamed;

    ghost try_from_gives = { AlignmentOf };

    fn try_from(number: u32) -> Result<Alignment, Unnamed> {
        match number {
            0 => Ok(Alignment::Left),
            1 => Ok(Alignment::Center),
            2 => Ok(Alignment::Right),
            _ => Err(Unnamed),
        }
    }
}

impl TryFrom<u32> for TitlePosition {
    type Error = Unnamed;

    ghost try_from_gives = { PositionOf };

    fn try_from(number: u32) -> Result<TitlePosition, Unnamed> {
        match number {
            0 => Ok(TitlePosition::Top),
            1 => Ok(TitlePosition::Bottom),
            _ => Err(Unnamed),
        }
    }
}
