// Search for a title at the top or the bottom.
ghost use Rattle.std.specs.Prelude.{◌≡◌, ◌&&◌};
ghost use Rattle.text.specs.Record.{is_head};
ghost use Rattle.text.specs.Lists.{some};
ghost use Rattle.block.specs.Inner.{title_is_at, has_title_at};

use crate::Block;
use text::{TitlePosition, head};

impl Block {
    // Whether the title with this head is at the position, its given one or the block's.
    pub fn title_is_at(self, position: TitlePosition, head: u32) -> bool
        ensures { result ≡ title_is_at self position head }
    {
        head::resolve_position(head, self.titles_position) == position
    }

    // Whether some record is the head of a title at the position.
    fn has_head_at(self, titles: &[u32], position: TitlePosition) -> bool
        ensures { result ≡ some (λ word. is_head word && title_is_at self position word) titles.now }
    {
        titles.iter().any(|word| head::is_head(*word) && self.title_is_at(position, *word))
    }

    // Whether a title is at the position, given or default (block.rs: `Block::has_title_at_position`).
    #[tactic(auto, using(crate::proofs::Titles::titles_tested))]
    pub fn has_title_at_position(self, titles: &[u32], position: TitlePosition) -> bool
        ensures { result ≡ has_title_at self titles.now position }
    {
        self.has_head_at(titles, position)
    }
}
