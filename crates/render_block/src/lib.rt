// Drawing of a block: its style, borders, titles and shadow.
#![tactic(auto)]

ghost use Rattle.std.specs.Prelude.{◌≡◌, false, [], ◌∷◌, ◌<◌, ◌^◌, length};
ghost use Rattle.layout.specs.Rect.{is_empty};
ghost use Rattle.buffer.specs.Drawing.{drawn, in_order};
ghost use Rattle.buffer.specs.PartsExtra.{OnScreen};
ghost use Rattle.text.specs.Line.{Opens};
ghost use Rattle.render_borders.specs.Borders.{sides, corners};
ghost use Rattle.block.specs.Causes.{SymbolsFit};
ghost use Rattle.titles.specs.Titles.{titles_from, titles_on};
ghost use Rattle.render_block.specs.Frame.{frame, block_of};
ghost use Rattle.buffer.specs.PartsExtra.{HasCells};

use buffer::{Ink, Screen};
use layout::Rect;
use titles::TitledBlock;

// Draws the sides and corners, then the titles, of a non-empty area that lies on the screen.
fn render_borders_and_titles(screen: Screen, cells: &mut [u64], titled: &TitledBlock, met: Rect)
    requires symbols_fit { SymbolsFit titled.now.block × (is_empty met ≡ false)
        × (screen.columns < 2 ^ 15) × (screen.rows < 2 ^ 15) × Opens titled.now.titles.now }
    requires on_screen { OnScreen screen (length cells.old) met }
    ensures { let styles = titled.now.styles.now in
        let block = titled.now.block in
        let read = titles_from titled.now.ambiguous titled.now.titles.now in
        let drawings = sides styles block met ∷ corners styles block met ∷ titles_on styles block met read ∷ [] in
        cells.new ≡ drawn screen.columns (in_order drawings) cells.old }
{
    render_borders::render_borders(screen, cells, titled.styles, titled.block, met);
    render_titles::render_titles(screen, cells, titled, met);
}

// Draws the block style, borders, titles and shadow of a non-empty area that lies on the screen.
pub fn render_frame(screen: Screen, cells: &mut [u64], titled: &TitledBlock, met: Rect)
    requires symbols_fit { SymbolsFit titled.now.block × (is_empty met ≡ false)
        × (screen.columns < 2 ^ 15) × (screen.rows < 2 ^ 15) × Opens titled.now.titles.now }
    requires on_screen { OnScreen screen (length cells.old) met }
    ensures { let read = titles_from titled.now.ambiguous titled.now.titles.now in
        let drawing = frame titled.now.styles.now screen read titled.now.block met in
        cells.new ≡ drawn screen.columns drawing cells.old }
{
    let ink = Ink::Style(buffer::style_at(titled.styles, titled.block.style));
    buffer::paint_area(screen, cells, met, ink);
    render_borders_and_titles(screen, cells, titled, met);
    shadow::render_shadow(screen, cells, titled.styles, met, titled.block.shadow);
}

// Draws a block on the intersection of its area and the screen, unless that is empty (block.rs: `Block::render`).
pub fn render(screen: Screen, cells: &mut [u64], titled: &TitledBlock, area: Rect)
    requires { SymbolsFit titled.now.block × HasCells screen (length cells.old) × Opens titled.now.titles.now }
    ensures { let read = titles_from titled.now.ambiguous titled.now.titles.now in
        let drawing = block_of titled.now.styles.now screen read titled.now.block area in
        cells.new ≡ drawn screen.columns drawing cells.old }
{
    let met = area.intersection(screen.area());
    if met.is_empty() {
        return;
    }
    render_frame(screen, cells, titled, met);
}
