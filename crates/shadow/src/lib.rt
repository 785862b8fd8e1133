// Drawing of a block's shadow (block/shadow.rs).
#![tactic(auto)]

ghost use Rattle.std.specs.Prelude.{◌≡◌, [], ◌∷◌, length};
ghost use Rattle.cell.specs.Cell.{styled};
ghost use Rattle.buffer.specs.Drawing.{drawn, in_order};
ghost use Rattle.buffer.specs.PartsExtra.{OnScreen};
ghost use Rattle.shadow.specs.Shadow.{shadow_area, only_outside, effect_of, shadow_of};
ghost use Rattle.shadow.specs.FittingExtra.{EffectFits, ShadowFits};

use block::{Effect, Shadow};
use buffer::{Ink, Screen};
use layout::Rect;

// Draws the shadow's symbol, if its effect has one, on its cells (block/shadow.rs: `Effect::apply`).
fn apply_effect(screen: Screen, cells: &mut [u64], base: Rect, area: Rect, effect: Effect)
    requires effect_fits { EffectFits effect }
    requires on_screen { OnScreen screen (length cells.old) base × OnScreen screen (length cells.old) area }
    ensures { cells.new ≡ drawn screen.columns (effect_of base area effect) cells.old }
{
    let Effect::Symbol(symbol) = effect else {
        return;
    };
    paint_outside::paint_outside(screen, cells, base, area, Ink::Symbol(symbol as u64));
}

// Sets the style of the shadow's cells, then applies its effect.
fn render_shadow_cells(
    screen: Screen,
    cells: &mut [u64],
    base: Rect,
    area: Rect,
    style: u64,
    effect: Effect,
)
    requires effect_fits { EffectFits effect }
    requires on_screen { OnScreen screen (length cells.old) base × OnScreen screen (length cells.old) area }
    ensures { let drawing = in_order (only_outside base area (styled style) ∷ effect_of base area effect ∷ []) in
        cells.new ≡ drawn screen.columns drawing cells.old }
{
    paint_outside::paint_outside(screen, cells, base, area, Ink::Style(style));
    apply_effect(screen, cells, base, area, effect);
}

// Returns the intersection of the block's area, moved by the shadow's offset, with the screen.
fn shadow_area(screen: Screen, base: Rect, x: i32, y: i32) -> Rect
    ensures { result ≡ shadow_area screen base x y }
{
    base.offset(x, y).intersection(screen.area())
}

// Draws the shadow of a block whose area on the screen is `base` (block.rs: `Block::render_shadow`, block/shadow.rs: `Shadow::render`).
pub fn render_shadow(screen: Screen, cells: &mut [u64], styles: &[u64], base: Rect, shadow: Shadow)
    requires shadow_fits { ShadowFits shadow }
    requires on_screen { OnScreen screen (length cells.old) base }
    ensures { cells.new ≡ drawn screen.columns (shadow_of styles.now screen base shadow) cells.old }
{
    let Shadow::Present {
        effect,
        style,
        x,
        y,
    } = shadow
    else {
        return;
    };
    let area = shadow_area(screen, base, x, y);
    if area.is_empty() {
        return;
    }
    let look = buffer::style_at(styles, style);
    render_shadow_cells(screen, cells, base, area, look, effect);
}
