// The call `inner`.
#![tactic(auto)]

ghost use Rattle.std.specs.Prelude.{◌≡◌};
ghost use Rattle.inner.specs.Call.{call_of, answer_of};

use block::Block;
use layout::Rect;
use refuse::{ACCEPTED, Refusal};

// Returns the inner area of a block (block.rs: `Block::inner`). Refused for causes 5 and 7.
#[tactic(auto, unfolding(crate::specs::Call::answer_of, crate::specs::Call::verdict_of, crate::specs::Call::causes_of))]
pub fn inner(block: Block, titles: &[u32], area: Rect) -> Result<Rect, Refusal>
    ensures { result ≡ answer_of (call_of block titles.now area) }
{
    check_block::frame_verdict(ACCEPTED, titles, block)?;
    Ok(block.inner(titles, area))
}
