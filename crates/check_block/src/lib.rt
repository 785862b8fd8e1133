// Checks of a block and its titles: cause 6, and causes 5 and 7 for calls without styles.
#![tactic(auto)]

ghost use Rattle.std.specs.Prelude.{◌≡◌};
ghost use Rattle.refuse.specs.Refusal.{first_cause};
ghost use Rattle.refuse.specs.Causes.{style_numbers_wrong};
ghost use Rattle.check_block.specs.Causes.{frame_causes};
ghost use Rattle.check_block.specs.Styles.{frame_styles};

use block::Block;
use refuse::{Ceilings, Refusal, refuse_if};

// Whether a style number of the block or of a title's glyph is not below the count of styles (cause 6).
#[tactic(auto, unfolding(crate::specs::Styles::frame_styles))]
pub fn style_numbers_wrong(count: usize, titles: &[u32], block: Block) -> bool
    ensures { result ≡ style_numbers_wrong count (frame_styles block titles.now) }
{
    block.style_numbers_wrong(count) || check_records::glyph_styles_wrong(count, titles)
}

// Returns the verdict of causes 5 and 7, lowest first.
#[tactic(auto, unfolding(crate::specs::Causes::frame_causes))]
pub fn frame_verdict(most: Ceilings, titles: &[u32], block: Block) -> Result<(), Refusal>
    ensures { result ≡ first_cause (frame_causes most titles.now block) }
{
    refuse_if(check_records::titles_wrong(most, titles), Refusal::Titles)?;
    refuse_if(block.symbols_wrong(), Refusal::Symbol)
}
