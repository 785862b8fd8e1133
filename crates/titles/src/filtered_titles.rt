// Selection of the titles of a group (block.rs: `Block::filtered_titles`).
ghost use Rattle.std.specs.Prelude.{◌≡◌};
ghost use Rattle.titles.specs.Titles.{is_chosen};

use crate::Group;
use block::Block;
use text::head;

impl Group {
    // Whether the title with this head belongs to the group, by its given or default position and alignment.
    #[tactic(auto, unfolding(crate::specs::Titles::is_chosen))]
    pub fn has_title(self, block: Block, head: u32) -> bool
        ensures { result ≡ is_chosen block self.position self.alignment head }
    {
        let alignment = head::resolve(head, block.titles_alignment);
        block.title_is_at(self.position, head) && alignment == self.alignment
    }
}
