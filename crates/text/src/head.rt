// Head, 32 bits: 1 | alignment 2 | position 2 | 27 zeros.
ghost use Rattle.std.specs.Prelude.{◌≡◌, ◌<◌, ◌^◌};
ghost use Rattle.text.specs.Record.{is_head, alignment_of, position_of, zeros_of, head_record};
ghost use Rattle.text.specs.Alignment.{resolved, resolved_position};

use crate::{Alignment, TitlePosition};

// Number of values of a field.
const ALIGNMENTS: u32 = 1 << 2;

const POSITIONS: u32 = 1 << 2;

// Place value of a field's lowest bit. The zeros are below the position.
const HEAD_PLACE: u32 = 1 << 31;

const ALIGNMENT_PLACE: u32 = 1 << 29;

pub const POSITION_PLACE: u32 = 1 << 27;

// Whether a record is a head; if not, it is a glyph.
pub fn is_head(word: u32) -> bool
    ensures { result ≡ is_head word }
{
    word / HEAD_PLACE == 1
}

pub fn alignment(head: u32) -> u32
    ensures { result ≡ alignment_of head }
{
    head / ALIGNMENT_PLACE % ALIGNMENTS
}

pub fn position(head: u32) -> u32
    ensures { result ≡ position_of head }
{
    head / POSITION_PLACE % POSITIONS
}

pub fn zeros(head: u32) -> u32
    ensures { result ≡ zeros_of head }
{
    head % POSITION_PLACE
}

// Packs these fields into a head, with zeros 0.
pub fn pack(alignment: u32, position: u32) -> u32
    requires { (alignment < 2 ^ 2) × (position < 2 ^ 2) }
    ensures { result ≡ head_record alignment position }
{
    HEAD_PLACE + alignment * ALIGNMENT_PLACE + position * POSITION_PLACE
}

// Returns the alignment that a head gives, or the default.
pub fn resolve(head: u32, default_alignment: Alignment) -> Alignment
    ensures { result ≡ resolved (alignment_of head) default_alignment }
{
    Alignment::try_from(alignment(head)).unwrap_or(default_alignment)
}

// Returns the position that a title's head gives, or the default.
pub fn resolve_position(head: u32, default_position: TitlePosition) -> TitlePosition
    ensures { result ≡ resolved_position (position_of head) default_position }
{
    TitlePosition::try_from(position(head)).unwrap_or(default_position)
}
