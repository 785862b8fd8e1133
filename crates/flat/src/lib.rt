// Settings as flat structs of numbers, for callers without enums, and the case that each number names. include/notice.h
// declares the structs in C.
#![tactic(auto)]

ghost use Rattle.std.specs.Prelude.{◌≡◌, ◌&&◌};
ghost use Rattle.flat.specs.FlatExtra.{unnamed, alignment_named, ambiguous_known, ambiguous_named, tally_known, list_known};
ghost use Rattle.flat.specs.FlatExtra.{position_named, shadow_named, wrap_named, area_from, block_known, block_from, text_known, settings_from, notice_from};

use block::{Block, BorderSet, Borders, Effect, Shadow};
use layout::Rect;
use line_composer::Wrap;
use padding::Padding;
use paragraph::Notice;
use render_text::TextSettings;
use text::{Alignment, AmbiguousWidth, TitlePosition};

// A rectangle.
#[repr(C)]
#[derive(Clone, Copy)]
pub struct FlatArea {
    pub x: u16,
    pub y: u16,
    pub width: u16,
    pub height: u16,
}

// Settings of a block. Borders: 0 absent, 1 present. Alignment of titles: 0 left, 1 centre, 2 right; position: 0 top, 1 bottom.
// Shadow: 0 none, 1 overlay, 2 symbol.
#[repr(C)]
#[derive(Clone, Copy)]
pub struct FlatBlock {
    pub top_left: u32,
    pub top_right: u32,
    pub bottom_left: u32,
    pub bottom_right: u32,
    pub vertical_left: u32,
    pub vertical_right: u32,
    pub horizontal_top: u32,
    pub horizontal_bottom: u32,
    pub shadow_symbol: u32,
    pub shadow_x: i32,
    pub shadow_y: i32,
    pub padding_left: u16,
    pub padding_right: u16,
    pub padding_top: u16,
    pub padding_bottom: u16,
    pub border_top: u8,
    pub border_right: u8,
    pub border_bottom: u8,
    pub border_left: u8,
    pub border_style: u8,
    pub style: u8,
    pub titles_style: u8,
    pub titles_alignment: u8,
    pub titles_position: u8,
    pub shadow: u8,
    pub shadow_style: u8,
}

// Settings of a notice other than its block. Alignment: 0 left, 1 centre, 2 right. Wrap: 0 unwrapped, scrolled right by `column`;
// 1 wrapped; 2 wrapped and trimmed. Ambiguous: 1 narrow, 2 wide.
#[repr(C)]
#[derive(Clone, Copy)]
pub struct FlatText {
    pub scroll: u16,
    pub column: u16,
    pub style: u8,
    pub text_style: u8,
    pub alignment: u8,
    pub wrap: u8,
    pub ambiguous: u8,
}

// Whether any number isn't below the count of cases.
fn any_unnamed(cases: usize, numbers: &[u8]) -> bool
    ensures { result ≡ unnamed cases numbers.now }
{
    numbers.iter().any(|number| cases <= *number as usize)
}

// Returns the alignment that a number names; numbers above 2 give the last. Not a TryFrom, nor are those below: the clauses of the
// exports to C speak of the case of every number.
pub fn alignment_named(number: u8) -> Alignment
    ensures { result ≡ alignment_named number }
{
    match number {
        0 => Alignment::Left,
        1 => Alignment::Center,
        _ => Alignment::Right,
    }
}

// Whether a number names a reading of ambiguous glyphs.
pub fn ambiguous_known(number: u8) -> bool
    ensures { result ≡ ambiguous_known number }
{
    number != 0 && number <= 2
}

// Returns the reading of ambiguous glyphs that a number names; numbers other than 1 give wide.
pub fn ambiguous_named(number: u8) -> AmbiguousWidth
    ensures { result ≡ ambiguous_named number }
{
    match number {
        1 => AmbiguousWidth::Narrow,
        _ => AmbiguousWidth::Wide,
    }
}

// Whether the settings of a tally name cases.
pub fn tally_known(ambiguous: u8, trim: u8) -> bool
    ensures { result ≡ tally_known ambiguous trim }
{
    ambiguous_known(ambiguous) && trim <= 1
}

// Whether the settings of a list call name cases.
pub fn list_known(ambiguous: u8, alignment: u8, trim: u8) -> bool
    ensures { result ≡ list_known ambiguous alignment trim }
{
    tally_known(ambiguous, trim) && alignment <= 2
}

// Returns the title position that a number names; numbers above 1 give the last.
fn position_named(number: u8) -> TitlePosition
    ensures { result ≡ position_named number }
{
    match number {
        0 => TitlePosition::Top,
        _ => TitlePosition::Bottom,
    }
}

// Returns the shadow that a number names; numbers above 2 give the last.
#[tactic(auto, unfolding(crate::specs::FlatExtra::shadow_named))]
fn shadow_named(kind: u8, symbol: u32, style: u8, x: i32, y: i32) -> Shadow
    ensures { result ≡ shadow_named kind symbol style x y }
{
    let effect = match kind {
        0 => return Shadow::Absent,
        1 => Effect::Overlay,
        _ => Effect::Symbol(symbol),
    };
    Shadow::Present {
        effect,
        style,
        x,
        y,
    }
}

impl From<FlatArea> for Rect {
    ghost from_gives = { λ flat area. area ≡ area_from flat };

    fn from(flat: FlatArea) -> Rect {
        Rect {
            x: flat.x,
            y: flat.y,
            width: flat.width,
            height: flat.height,
        }
    }
}

impl FlatBlock {
    // Whether every number names a case.
    #[tactic(auto, unfolding(crate::specs::FlatExtra::block_known))]
    pub fn is_known(self) -> bool
        ensures { result ≡ block_known self }
    {
        let no_flags = any_unnamed(
            2,
            &[
                self.border_top,
                self.border_right,
                self.border_bottom,
                self.border_left,
                self.titles_position,
            ],
        );
        !(no_flags || any_unnamed(3, &[self.titles_alignment, self.shadow]))
    }

    // Returns which borders are present.
    #[tactic(auto, unfolding(crate::specs::FlatExtra::block_from))]
    fn borders(self) -> Borders
        ensures { result ≡ (block_from self).borders }
    {
        Borders {
            top: self.border_top == 1,
            right: self.border_right == 1,
            bottom: self.border_bottom == 1,
            left: self.border_left == 1,
        }
    }
}

// The block that known settings name.
impl From<FlatBlock> for Block {
    ghost from_gives = { λ flat block. block ≡ block_from flat };

    #[tactic(auto, unfolding(crate::specs::FlatExtra::block_from))]
    fn from(flat: FlatBlock) -> Block {
        let border_set = BorderSet {
            top_left: flat.top_left,
            top_right: flat.top_right,
            bottom_left: flat.bottom_left,
            bottom_right: flat.bottom_right,
            vertical_left: flat.vertical_left,
            vertical_right: flat.vertical_right,
            horizontal_top: flat.horizontal_top,
            horizontal_bottom: flat.horizontal_bottom,
        };
        let padding = Padding {
            left: flat.padding_left,
            right: flat.padding_right,
            top: flat.padding_top,
            bottom: flat.padding_bottom,
        };
        Block {
            borders: flat.borders(),
            border_set,
            border_style: flat.border_style,
            style: flat.style,
            padding,
            titles_style: flat.titles_style,
            titles_alignment: alignment_named(flat.titles_alignment),
            titles_position: position_named(flat.titles_position),
            shadow: shadow_named(
                flat.shadow,
                flat.shadow_symbol,
                flat.shadow_style,
                flat.shadow_x,
                flat.shadow_y,
            ),
        }
    }
}

impl FlatText {
    // Whether every number names a case.
    #[tactic(auto, unfolding(crate::specs::FlatExtra::text_known))]
    pub fn is_known(self) -> bool
        ensures { result ≡ text_known self }
    {
        !any_unnamed(3, &[self.alignment, self.wrap]) && ambiguous_known(self.ambiguous)
    }

    // Returns how lines are composed.
    #[tactic(auto, unfolding(crate::specs::FlatExtra::wrap_named))]
    pub fn named_wrap(self) -> Wrap
        ensures { result ≡ wrap_named self }
    {
        match self.wrap {
            0 => Wrap::Off {
                column: self.column,
            },
            wrap => Wrap::On { trim: wrap == 2 },
        }
    }

    // Returns the notice that known settings of text and block name.
    #[tactic(auto, unfolding(crate::specs::FlatExtra::notice_from))]
    pub fn notice(self, block: FlatBlock) -> Notice
        ensures { result ≡ notice_from block self }
    {
        Notice {
            block: Block::from(block),
            style: self.style,
            text_style: self.text_style,
            alignment: alignment_named(self.alignment),
            wrap: self.named_wrap(),
            scroll: self.scroll,
            ambiguous: ambiguous_named(self.ambiguous),
        }
    }
}

// The settings that known settings of a text name.
impl From<FlatText> for TextSettings {
    ghost from_gives = { λ flat settings. settings ≡ settings_from flat };

    #[tactic(auto, unfolding(crate::specs::FlatExtra::settings_from))]
    fn from(flat: FlatText) -> TextSettings {
        TextSettings {
            style: flat.style,
            text_style: flat.text_style,
            alignment: alignment_named(flat.alignment),
            wrap: flat.named_wrap(),
            scroll: flat.scroll,
            ambiguous: ambiguous_named(flat.ambiguous),
        }
    }
}

// Whether every number of a notice's settings names a case.
pub fn all_known(block: FlatBlock, text: FlatText) -> bool
    ensures { result ≡ (block_known block && text_known text) }
{
    block.is_known() && text.is_known()
}

// Whether every number of a block's settings names a case, and the number of a reading of ambiguous glyphs does.
pub fn block_and_reading_known(block: FlatBlock, ambiguous: u8) -> bool
    ensures { result ≡ (block_known block && ambiguous_known ambiguous) }
{
    block.is_known() && ambiguous_known(ambiguous)
}
