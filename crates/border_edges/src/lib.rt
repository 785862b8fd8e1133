// The sides and corners of a block's area (block.rs: the tables in `Block::render_sides` and `Block::render_corners`).
#![tactic(auto)]

ghost use Rattle.std.specs.Prelude.{◌≡◌, [], ◌∷◌, ◌-◌};
ghost use Rattle.layout.specs.Rect.{right_of, bottom_of};
ghost use Rattle.border_edges.specs.Edges.{left_edge, top_edge, right_edge, bottom_edge, bottom_right_edge, top_right_edge, bottom_left_edge, top_left_edge};

use block::Block;
use layout::Rect;

// A side or corner: whether it is present, its cells and its symbol.
#[derive(Clone, Copy)]
pub struct Edge {
    // A side that is absent is an Edge too: the definitions and two edits speak of present.
    pub present: bool,
    pub part: Rect,
    pub symbol: u32,
}

// Returns the last column of a rectangle: its right less 1, saturating at 0.
fn last_column(area: Rect) -> u16
    ensures { result ≡ right_of area - 1 }
{
    area.right().saturating_sub(1)
}

// Returns the last row of a rectangle: its bottom less 1, saturating at 0.
fn last_row(area: Rect) -> u16
    ensures { result ≡ bottom_of area - 1 }
{
    area.bottom().saturating_sub(1)
}

// Returns the column of an area at x.
fn column(area: Rect, x: u16) -> Rect
    ensures { result ≡ record { x = x; y = area.y; width = 1; height = area.height } }
{
    Rect {
        x,
        width: 1,
        ..area
    }
}

// Returns the row of an area at y.
fn row(area: Rect, y: u16) -> Rect
    ensures { result ≡ record { x = area.x; y = y; width = area.width; height = 1 } }
{
    Rect {
        y,
        height: 1,
        ..area
    }
}

// Returns the cell of a corner, as a rectangle.
fn corner(x: u16, y: u16) -> Rect
    ensures { result ≡ record { x = x; y = y; width = 1; height = 1 } }
{
    Rect {
        x,
        y,
        width: 1,
        height: 1,
    }
}

// Returns the sides: first column, first row, last column, last row.
pub fn sides(block: Block, area: Rect) -> [Edge; 4]
    ensures { result ≡ left_edge block area ∷ top_edge block area ∷ right_edge block area ∷ bottom_edge block area ∷ [] }
{
    let on = block.borders;
    let set = block.border_set;
    let left = Edge {
        present: on.left,
        part: column(area, area.x),
        symbol: set.vertical_left,
    };
    let top = Edge {
        present: on.top,
        part: row(area, area.y),
        symbol: set.horizontal_top,
    };
    let right = Edge {
        present: on.right,
        part: column(area, last_column(area)),
        symbol: set.vertical_right,
    };
    let bottom = Edge {
        present: on.bottom,
        part: row(area, last_row(area)),
        symbol: set.horizontal_bottom,
    };
    [left, top, right, bottom]
}

// Returns the corners: bottom right, top right, bottom left, top left.
pub fn corners(block: Block, area: Rect) -> [Edge; 4]
    ensures { result ≡ bottom_right_edge block area ∷ top_right_edge block area ∷ bottom_left_edge block area ∷ top_left_edge block area ∷ [] }
{
    let on = block.borders;
    let set = block.border_set;
    let bottom_right = Edge {
        present: on.right && on.bottom,
        part: corner(last_column(area), last_row(area)),
        symbol: set.bottom_right,
    };
    let top_right = Edge {
        present: on.right && on.top,
        part: corner(last_column(area), area.y),
        symbol: set.top_right,
    };
    let bottom_left = Edge {
        present: on.left && on.bottom,
        part: corner(area.x, last_row(area)),
        symbol: set.bottom_left,
    };
    let top_left = Edge {
        present: on.left && on.top,
        part: corner(area.x, area.y),
        symbol: set.top_left,
    };
    [bottom_right, top_right, bottom_left, top_left]
}
