// Drawing of a notice, its frame and its text apart: paragraph.rs: `Paragraph::render` and `Paragraph::render_paragraph`.
#![tactic(auto)]

ghost use Rattle.std.specs.Prelude.{◌≡◌, false, [], ◌∷◌, ◌<◌, ◌^◌, length};
ghost use Rattle.text.specs.Line.{Opens};
ghost use Rattle.cell.specs.Cell.{styled};
ghost use Rattle.layout.specs.Rect.{is_empty};
ghost use Rattle.buffer.specs.Drawing.{drawn, over, in_order, style_at};
ghost use Rattle.buffer.specs.PartsExtra.{OnScreen};
ghost use Rattle.buffer.specs.PartsExtra.{HasCells};
ghost use Rattle.block.specs.Causes.{SymbolsFit};
ghost use Rattle.titles.specs.Titles.{titles_from};
ghost use Rattle.render_block.specs.Frame.{frame};
ghost use Rattle.render_lines.specs.DrawingExtra.{Composable};
ghost use Rattle.paragraph.specs.Notice.{settings_of, inner_area_of};
ghost use Rattle.paragraph.specs.Apart.{frame_of, paragraph_of, paragraph_counts};

use block::Block;
use buffer::{Ink, Screen};
use layout::Rect;
use line_composer::Wrap;
use render_lines::DrawCounts;
use render_text::TextSettings;
use text::{Alignment, AmbiguousWidth};
use titles::TitledBlock;

// Settings of a notice (paragraph.rs: `Paragraph`). `style` and `text_style` are style numbers, `alignment` is the default of its lines,
// `scroll` the first line drawn, `ambiguous` how ambiguous glyphs of text and titles are read.
#[derive(Clone, Copy)]
pub struct Notice {
    pub block: Block,
    pub style: u8,
    pub text_style: u8,
    pub alignment: Alignment,
    pub wrap: Wrap,
    pub scroll: u16,
    pub ambiguous: AmbiguousWidth,
}

impl Notice {
    // Returns the settings of the notice without its block.
    pub fn text_settings(self) -> TextSettings
        ensures { result ≡ settings_of self }
    {
        let alignment = self.alignment;
        let wrap = self.wrap;
        let ambiguous = self.ambiguous;
        TextSettings {
            style: self.style,
            text_style: self.text_style,
            alignment,
            wrap,
            scroll: self.scroll,
            ambiguous,
        }
    }
}

// Applies the notice's style to `met`, which is on the screen and not empty, then draws the frame and its shadow.
fn render_style_and_frame(
    screen: Screen,
    cells: &mut [u64],
    titled: &TitledBlock,
    met: Rect,
    style: u8,
)
    requires symbols_fit { SymbolsFit titled.now.block × (is_empty met ≡ false)
        × (screen.columns < 2 ^ 15) × (screen.rows < 2 ^ 15) × Opens titled.now.titles.now }
    requires on_screen { OnScreen screen (length cells.old) met }
    ensures { let under = over met (styled (style_at titled.now.styles.now style)) in
        let read = titles_from titled.now.ambiguous titled.now.titles.now in
        let around = frame titled.now.styles.now screen read titled.now.block met in
        cells.new ≡ drawn screen.columns (in_order (under ∷ around ∷ [])) cells.old }
{
    let ink = Ink::Style(buffer::style_at(titled.styles, style));
    buffer::paint_area(screen, cells, met, ink);
    render_block::render_frame(screen, cells, titled, met);
}

// Draws the frame of a notice in the intersection of its area and the screen, the notice's style first, and its shadow; nothing if the
// intersection is empty. (paragraph.rs: the first half of `Paragraph::render`)
pub fn render_frame(screen: Screen, cells: &mut [u64], titled: &TitledBlock, area: Rect, style: u8)
    requires { SymbolsFit titled.now.block × HasCells screen (length cells.old) × Opens titled.now.titles.now }
    ensures { let read = titles_from titled.now.ambiguous titled.now.titles.now in
        let drawing = frame_of titled.now.styles.now screen read style titled.now.block area in
        cells.new ≡ drawn screen.columns drawing cells.old }
{
    let met = area.intersection(screen.area());
    if met.is_empty() {
        return;
    }
    render_style_and_frame(screen, cells, titled, met, style);
}

// Returns the inner area of the intersection of a notice's area and the screen.
pub fn inner_area(screen: Screen, titles: &[u32], block: Block, area: Rect) -> Rect
    ensures { result ≡ inner_area_of screen titles.now block area }
{
    let met = area.intersection(screen.area());
    block.inner(titles, met)
}

// Lays the notice's style and its lines into the intersection of an area and the screen; nothing if it is empty.
// (paragraph.rs: `Paragraph::render_paragraph`)
pub fn render_paragraph(
    screen: Screen,
    cells: &mut [u64],
    styles: &[u64],
    text: &[u32],
    area: Rect,
    settings: TextSettings,
) -> DrawCounts
    requires { Composable text.now × HasCells screen (length cells.old) }
    ensures cells { let drawing = paragraph_of styles.now screen text.now settings area in
        cells.new ≡ drawn screen.columns drawing cells.old }
    ensures counts { result ≡ paragraph_counts screen text.now settings area }
{
    let inside = area.intersection(screen.area());
    if inside.is_empty() {
        return DrawCounts {
            rows: 0,
            placed: 0,
            clipped: 0,
        };
    }
    render_text::render_text(screen, cells, styles, text, inside, settings)
}
