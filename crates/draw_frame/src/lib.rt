// The call `draw_frame`: checks its inputs, then draws the frame of a notice.
#![tactic(auto)]

ghost use Rattle.std.specs.Prelude.{◌≡◌};
ghost use Rattle.refuse.specs.Causes.{style_numbers_wrong};
ghost use Rattle.draw_frame.specs.Call.{call_of, notice_frame_styles, verdict_of, answer_of, cells_after};

use block::Block;
use check_settings::screen;
use layout::Rect;
use refuse::{ACCEPTED, Refusal, refuse_if};
use text::AmbiguousWidth;
use titles::TitledBlock;

// Whether the notice's style number, or one of the block or a title glyph, isn't below the count of styles (cause 6).
#[tactic(auto, unfolding(crate::specs::Call::notice_frame_styles))]
fn style_numbers_wrong(count: usize, titles: &[u32], style: u8, block: Block) -> bool
    ensures { result ≡ style_numbers_wrong count (notice_frame_styles style block titles.now) }
{
    count <= style as usize || check_block::style_numbers_wrong(count, titles, block)
}

// Returns the verdict of the call's checks, lowest cause first.
#[tactic(auto, unfolding(crate::specs::Call::verdict_of, crate::specs::Call::causes_of, refuse::specs::Causes::screen_causes))]
fn draw_frame_verdict(
    columns: u32,
    rows: u32,
    cells: &[u64],
    styles: &[u64],
    titles: &[u32],
    ambiguous: AmbiguousWidth,
    area: Rect,
    style: u8,
    block: Block,
) -> Result<(), Refusal>
    ensures { let call = call_of columns rows cells.now styles.now titles.now ambiguous area style block in
        result ≡ verdict_of call }
{
    screen::screen_verdict(ACCEPTED, columns, rows, cells.len(), styles)?;
    refuse_if(
        check_records::titles_wrong(ACCEPTED, titles),
        Refusal::Titles,
    )?;
    let no_style = style_numbers_wrong(styles.len(), titles, style, block);
    refuse_if(no_style, Refusal::StyleNumber)?;
    refuse_if(block.symbols_wrong(), Refusal::Symbol)
}

// Draws the frame of a notice, its paragraph style first, and answers the inner area of the part on the screen, for `draw_text`
// (paragraph.rs: the first half of `Paragraph::render`). Refused for causes 1, 2, 5, 6 and 7; a refused call changes no cell.
#[tactic(auto, unfolding(crate::specs::Call::answer_of, crate::specs::Call::cells_after, crate::specs::Call::drawing_of, crate::specs::Call::inner_in))]
pub fn draw_frame(
    columns: u32,
    rows: u32,
    cells: &mut [u64],
    styles: &[u64],
    titles: &[u32],
    ambiguous: AmbiguousWidth,
    area: Rect,
    style: u8,
    block: Block,
) -> Result<Rect, Refusal>
    ensures { let call = call_of columns rows cells.old styles.now titles.now ambiguous area style block in
        (result ≡ answer_of call) × (cells.new ≡ cells_after call) }
{
    draw_frame_verdict(
        columns, rows, cells, styles, titles, ambiguous, area, style, block,
    )?;
    let screen = screen::screen_size(columns, rows);
    let titled = TitledBlock {
        styles,
        titles,
        ambiguous,
        block,
    };
    paragraph::render_frame(screen, cells, &titled, area, style);
    Ok(paragraph::inner_area(screen, titles, block, area))
}
