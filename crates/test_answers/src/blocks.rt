// Checksums of the port's answers on blocks.
ghost use Rattle.std.specs.Prelude.{◌≡◌};
ghost use Rattle.test_answers.specs.BlocksExtra.{area_sum, with_space};

use block::Space;
use draw_block::draw_block;
use layout::Rect;
use test_blocks::areas::cells_of;
use test_blocks::words::{four_on, write_words};
use test_blocks::{Case, many_titles, titles};
use test_sums::with_number;
use test_texts::random::{below, next, seed};
use test_texts::texts::ambiguous_of;

// Returns the checksum of an area's four numbers.
#[tactic(auto, unfolding(crate::specs::BlocksExtra::area_sum))]
pub fn sum_area(area: Rect) -> u32
    ensures { result ≡ area_sum area }
{
    let x = with_number(0, u32::from(area.x));
    let y = with_number(x, u32::from(area.y));
    let width = with_number(y, u32::from(area.width));
    with_number(width, u32::from(area.height))
}

// Returns a checksum extended by the space that a block takes on two sides.
#[tactic(auto, unfolding(crate::specs::BlocksExtra::with_space))]
fn with_space(sum: u32, space: Space) -> u32
    ensures { result ≡ with_space sum space }
{
    with_number(
        with_number(sum, u32::from(space.before)),
        u32::from(space.after),
    )
}

// Returns the checksum of the inner area and the space that the block takes on the left, right, top and bottom.
pub fn inner(case: Case) -> Option<u32> {
    let mut records = [0u32; 6];
    let n = titles::write_titles(&mut records, case.manner.titles, case.seed);
    let titles = &records[..n];
    let block = case.block;
    let inner = inner::inner(block, titles, case.area).ok()?;
    let across = with_space(sum_area(inner), block.horizontal_space());
    Some(with_space(across, block.vertical_space(titles)))
}

// Draws the block and returns the checksum of all cells. None too if the case has no screen, or a larger one than `cells`.
pub fn drawn(case: Case, cells: &mut [u64]) -> Option<u32> {
    let screen = case.screen?;
    let cells = cells.get_mut(..cells_of(screen))?;
    let mut styles = [0u64; 8];
    let styles = &mut styles[..case.manner.styles as usize];
    let mut records = [0u32; 4112];
    write_words(styles, style::REMOVE_PLACE, seed(case.seed));
    write_words(cells, 1, seed(next(case.seed)));
    let x = four_on(seed(next(next(case.seed))));
    let n = many_titles::write_many(&mut records, case.manner, x);
    let ambiguous = ambiguous_of(below(case.seed, 2));
    let columns = u32::from(screen.columns);
    let rows = u32::from(screen.rows);
    draw_block(
        columns,
        rows,
        cells,
        styles,
        &records[..n],
        ambiguous,
        case.area,
        case.block,
    )
    .ok()?;
    Some(test_sums::sum_entries(cells))
}
