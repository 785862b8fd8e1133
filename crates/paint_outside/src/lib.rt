// Painting the cells of one rectangle outside another.
#![tactic(auto)]

ghost use Rattle.std.specs.Prelude.{◌≡◌, [], ◌∷◌, length};
ghost use Rattle.buffer.specs.Drawing.{drawn, over, sparing, in_order};
ghost use Rattle.buffer.specs.InkExtra.{inked, SymbolFits};
ghost use Rattle.buffer.specs.PartsExtra.{OnScreen};
ghost use Rattle.paint_outside.specs.AroundExtra.{rect_between, above, below, left_of, right_from};

use buffer::{Ink, Screen};
use layout::Rect;

// Returns the rectangle from column `left` to before `right`, and from row `top` to before `bottom`.
fn rect_between(left: u16, top: u16, right: u16, bottom: u16) -> Rect
    ensures { result ≡ rect_between left top right bottom }
{
    Rect {
        x: left,
        y: top,
        width: right.saturating_sub(left),
        height: bottom.saturating_sub(top),
    }
}

// Returns the part of a rectangle above another.
#[tactic(auto, unfolding(crate::specs::AroundExtra::above))]
fn above(area: Rect, spared: Rect) -> Rect
    ensures { result ≡ above area spared }
{
    rect_between(area.x, area.y, area.right(), area.bottom().min(spared.y))
}

// Returns the part of a rectangle below another.
#[tactic(auto, unfolding(crate::specs::AroundExtra::below))]
fn below(area: Rect, spared: Rect) -> Rect
    ensures { result ≡ below area spared }
{
    rect_between(
        area.x,
        area.y.max(spared.bottom()),
        area.right(),
        area.bottom(),
    )
}

// Returns the part of a rectangle left of another, in the other's rows.
#[tactic(auto, unfolding(crate::specs::AroundExtra::left_of))]
fn left_of(area: Rect, spared: Rect) -> Rect
    ensures { result ≡ left_of area spared }
{
    let top = area.y.max(spared.y);
    let bottom = area.bottom().min(spared.bottom());
    rect_between(area.x, top, area.right().min(spared.x), bottom)
}

// Returns the part of a rectangle right of another, in the other's rows.
#[tactic(auto, unfolding(crate::specs::AroundExtra::right_from))]
fn right_from(area: Rect, spared: Rect) -> Rect
    ensures { result ≡ right_from area spared }
{
    let top = area.y.max(spared.y);
    let bottom = area.bottom().min(spared.bottom());
    rect_between(area.x.max(spared.right()), top, area.right(), bottom)
}

// Paints the cells of two rectangles on the screen, one after the other.
#[tactic(auto, using(crate::proofs::Painted::both_painted))]
fn paint_both(screen: Screen, cells: &mut [u64], one: Rect, other: Rect, ink: Ink)
    requires symbol_fits { SymbolFits ink }
    requires on_screen { OnScreen screen (length cells.old) one × OnScreen screen (length cells.old) other }
    ensures { let drawing = in_order (over one (inked ink) ∷ over other (inked ink) ∷ []) in
        cells.new ≡ drawn screen.columns drawing cells.old }
{
    buffer::paint_area(screen, cells, one, ink);
    buffer::paint_area(screen, cells, other, ink);
}

// Paints the cells of a rectangle outside another; both lie on the screen (block/shadow.rs: `for_each_shadow_cell`).
pub fn paint_outside(screen: Screen, cells: &mut [u64], spared: Rect, area: Rect, ink: Ink)
    requires symbol_fits { SymbolFits ink }
    requires on_screen { OnScreen screen (length cells.old) spared × OnScreen screen (length cells.old) area }
    ensures { cells.new ≡ drawn screen.columns (sparing spared (over area (inked ink))) cells.old }
{
    let above = above(area, spared);
    let below = below(area, spared);
    let left = left_of(area, spared);
    let right = right_from(area, spared);
    paint_both(screen, cells, above, below, ink);
    paint_both(screen, cells, left, right, ink);
}
