// Drawing of a block's sides and corners.
#![tactic(auto)]

ghost use Rattle.std.specs.Prelude.{◌≡◌, false, [], ◌∷◌, ◌<◌, ◌^◌, length, map};
ghost use Rattle.layout.specs.Rect.{is_empty};
ghost use Rattle.buffer.specs.Drawing.{drawn, in_order};
ghost use Rattle.buffer.specs.PartsExtra.{OnScreen};
ghost use Rattle.render_borders.specs.Borders.{border, sides, corners};
ghost use Rattle.render_borders.specs.BordersExtra.{EdgesFit};
ghost use Rattle.block.specs.Causes.{SymbolsFit};

use block::Block;
use border_edges::Edge;
use buffer::{Ink, Screen};
use layout::Rect;

// Draws a side or corner if it is present: its cells get the symbol, then the border style.
fn render_edge(screen: Screen, cells: &mut [u64], styles: &[u64], block: Block, edge: Edge)
    requires symbol_bound { edge.symbol < 2 ^ 21 }
    requires on_screen { OnScreen screen (length cells.old) edge.part }
    ensures { cells.new ≡ drawn screen.columns (border styles.now block edge) cells.old }
{
    if edge.present {
        let symbol = edge.symbol as u64;
        let ink = Ink::Both(symbol, buffer::style_at(styles, block.border_style));
        buffer::paint_area(screen, cells, edge.part, ink);
    }
}

// Draws sides or corners in order.
fn render_edges(screen: Screen, cells: &mut [u64], styles: &[u64], block: Block, edges: &[Edge])
    requires edges_fit { EdgesFit screen (length cells.old) edges.now }
    ensures { cells.new ≡ drawn screen.columns (in_order (map (border styles.now block) edges.now)) cells.old }
{
    for edge in edges {
        render_edge(screen, cells, styles, block, *edge);
    }
}

// Draws the sides, then the corners, of a non-empty rectangle (block.rs: `Block::render_borders`, with `render_sides` and
// `render_corners`).
pub fn render_borders(screen: Screen, cells: &mut [u64], styles: &[u64], block: Block, area: Rect)
    requires symbols_fit { SymbolsFit block × (is_empty area ≡ false) }
    requires on_screen { OnScreen screen (length cells.old) area }
    ensures { let drawing = in_order (sides styles.now block area ∷ corners styles.now block area ∷ []) in
        cells.new ≡ drawn screen.columns drawing cells.old }
{
    let sides = border_edges::sides(block, area);
    let corners = border_edges::corners(block, area);
    render_edges(screen, cells, styles, block, &sides);
    render_edges(screen, cells, styles, block, &corners);
}
