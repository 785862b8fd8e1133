// The call `draw_block`.
#![tactic(auto)]

ghost use Rattle.std.specs.Prelude.{◌≡◌};
ghost use Rattle.draw_block.specs.Call.{call_of, verdict_of, answer_of, cells_after};

use block::Block;
use check_settings::screen;
use layout::Rect;
use refuse::{ACCEPTED, Refusal, refuse_if};
use text::AmbiguousWidth;
use titles::TitledBlock;

// Returns the verdict of the call's checks, lowest cause first.
#[tactic(auto, unfolding(crate::specs::Call::verdict_of, crate::specs::Call::causes_of, refuse::specs::Causes::screen_causes))]
fn draw_block_verdict(
    columns: u32,
    rows: u32,
    cells: &[u64],
    styles: &[u64],
    titles: &[u32],
    ambiguous: AmbiguousWidth,
    area: Rect,
    block: Block,
) -> Result<(), Refusal>
    ensures { let call = call_of columns rows cells.now styles.now titles.now ambiguous area block in
        result ≡ verdict_of call }
{
    screen::screen_verdict(ACCEPTED, columns, rows, cells.len(), styles)?;
    refuse_if(
        check_records::titles_wrong(ACCEPTED, titles),
        Refusal::Titles,
    )?;
    let no_style = check_block::style_numbers_wrong(styles.len(), titles, block);
    refuse_if(no_style, Refusal::StyleNumber)?;
    refuse_if(block.symbols_wrong(), Refusal::Symbol)
}

// Draws a block with its titles (block.rs: `Block::render`). Refused for causes 1, 2, 5, 6 and 7; a refused call
// changes no cell.
#[tactic(auto, unfolding(crate::specs::Call::cells_after, crate::specs::Call::drawing_of))]
pub fn draw_block(
    columns: u32,
    rows: u32,
    cells: &mut [u64],
    styles: &[u64],
    titles: &[u32],
    ambiguous: AmbiguousWidth,
    area: Rect,
    block: Block,
) -> Result<(), Refusal>
    ensures { let call = call_of columns rows cells.old styles.now titles.now ambiguous area block in
        (result ≡ answer_of call) × (cells.new ≡ cells_after call) }
{
    draw_block_verdict(columns, rows, cells, styles, titles, ambiguous, area, block)?;
    let screen = screen::screen_size(columns, rows);
    let titled = TitledBlock {
        styles,
        titles,
        ambiguous,
        block,
    };
    render_block::render(screen, cells, &titled, area);
    Ok(())
}
