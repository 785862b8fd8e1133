// The call `draw_text`: checks its inputs, then lays the text of a notice into an area.
#![tactic(auto)]

ghost use Rattle.std.specs.Prelude.{◌≡◌};
ghost use Rattle.refuse.specs.Causes.{style_numbers_wrong};
ghost use Rattle.draw_text.specs.Call.{call_of, text_styles, verdict_of, answer_of, cells_after};

use check_settings::screen;
use layout::Rect;
use refuse::{ACCEPTED, Refusal, refuse_if};
use render_lines::DrawCounts;
use render_text::TextSettings;

// Whether a style number of the settings or of a text glyph isn't below the count of styles (cause 6).
#[tactic(auto, unfolding(crate::specs::Call::text_styles))]
pub fn style_numbers_wrong(count: usize, text: &[u32], settings: TextSettings) -> bool
    ensures { result ≡ style_numbers_wrong count (text_styles settings text.now) }
{
    count <= settings.style as usize
        || count <= settings.text_style as usize
        || check_records::glyph_styles_wrong(count, text)
}

// Returns the verdict of the call's checks, lowest cause first.
#[tactic(auto, unfolding(crate::specs::Call::verdict_of, crate::specs::Call::causes_of, refuse::specs::Causes::screen_causes, refuse::specs::Causes::text_causes))]
fn draw_text_verdict(
    columns: u32,
    rows: u32,
    cells: &[u64],
    styles: &[u64],
    text: &[u32],
    area: Rect,
    settings: TextSettings,
) -> Result<(), Refusal>
    ensures { let call = call_of columns rows cells.now styles.now text.now area settings in
        result ≡ verdict_of call }
{
    screen::screen_verdict(ACCEPTED, columns, rows, cells.len(), styles)?;
    check_records::text_verdict(ACCEPTED, text)?;
    refuse_if(
        style_numbers_wrong(styles.len(), text, settings),
        Refusal::StyleNumber,
    )
}

// Lays the paragraph style and the text of a notice into the part of an area that is on the screen (paragraph.rs:
// `Paragraph::render_paragraph`). Refused for causes 1, 2, 3, 4 and 6; a refused call changes no cell.
#[tactic(auto, unfolding(crate::specs::Call::answer_of, crate::specs::Call::cells_after, crate::specs::Call::drawing_of, crate::specs::Call::rows_of))]
pub fn draw_text(
    columns: u32,
    rows: u32,
    cells: &mut [u64],
    styles: &[u64],
    text: &[u32],
    area: Rect,
    settings: TextSettings,
) -> Result<DrawCounts, Refusal>
    ensures { let call = call_of columns rows cells.old styles.now text.now area settings in
        (result ≡ answer_of call) × (cells.new ≡ cells_after call) }
{
    draw_text_verdict(columns, rows, cells, styles, text, area, settings)?;
    let screen = screen::screen_size(columns, rows);
    Ok(paragraph::render_paragraph(screen, cells, styles, text, area, settings))
}
