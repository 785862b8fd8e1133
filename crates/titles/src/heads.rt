// Search for the last title, from the end.
ghost use Rattle.std.specs.Prelude.{◌<◌, ◌≤◌, length, take};
ghost use Rattle.text.specs.Line.{lines_from};
ghost use Rattle.titles.specs.PlacingExtra.{LastHead};

use text::head;

// Returns the record number of the last head before record `end`.
#[tactic(auto, using(crate::proofs::LastTitle::seeking))]
pub fn last_head(titles: &[u32], end: usize) -> usize
    requires { (end ≤ length titles.now) × (0 < length (lines_from 0 (take end titles.now))) }
    ensures { LastHead titles.now end result }
{
    for i in (0..end).rev() {
        if head::is_head(titles[i]) {
            return i;
        }
    }
    0
}
