// Shadows of the test blocks.
ghost use Rattle.std.specs.Prelude.{◌<◌, ◌≤◌, ◌^◌};

use crate::borders::symbol;
use block::{Effect, Shadow};
use test_texts::random::{below, next};

// Returns a random style number below `styles`.
pub fn style(x: u32, styles: u32) -> u8
    requires { (0 < styles) × (styles ≤ 8) }
{
    below(x, styles) as u8
}

// Returns a - b, which may be negative.
fn less(a: u32, b: u32) -> i32
    requires { (a < 2 ^ 31) × (b < 2 ^ 31) }
{
    (a as i32) - (b as i32)
}

// Returns a shadow's offset: the least or greatest i32, 65,535 or -65,535, 0, or at most `reach` either way.
fn offset(x: u32, reach: u32) -> i32
    requires { reach ≤ 128 }
{
    match below(x, 16) {
        0 => -2147483648,
        1 => 2147483647,
        2 => -65535,
        3 => 65535,
        4 => 0,
        _ => less(below(next(x), 2 * reach + 1), reach),
    }
}

// Returns the effect of a shadow kind: an overlay, or a symbol made from x.
fn effect(kind: u32, x: u32) -> Effect {
    match kind {
        1 => Effect::Overlay,
        _ => Effect::Symbol(symbol(x)),
    }
}

// Returns the shadow of a kind, made from x and the next five random numbers: 0 is absent, 1 an overlay, 2 and 3 a symbol.
pub fn shadow(kind: u32, x: u32, styles: u32, reach: u32) -> Shadow
    requires styles_nonzero { (0 < styles) × (styles ≤ 8) }
    requires reach_bound { reach ≤ 128 }
{
    if kind == 0 {
        return Shadow::Absent;
    }
    let b = next(x);
    let c = next(b);
    let e = next(next(c));
    Shadow::Present {
        effect: effect(kind, b),
        style: style(x, styles),
        x: offset(c, reach),
        y: offset(e, reach),
    }
}
