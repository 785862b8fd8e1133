// Padding of a block, and its constructors (block/padding.rs).
#![tactic(auto)]

ghost use Rattle.std.specs.Prelude.{◌≡◌, ◌*◌};
ghost use Rattle.num.specs.Held.{held};
ghost use Rattle.padding.specs.Padding.{padding_of};

// Cells left free between the borders and the inner area.
#[derive(Clone, Copy)]
pub struct Padding {
    pub left: u16,
    pub right: u16,
    pub top: u16,
    pub bottom: u16,
}

impl Padding {
    pub fn new(left: u16, right: u16, top: u16, bottom: u16) -> Padding
        ensures { result ≡ padding_of left right top bottom }
    {
        Padding {
            left,
            right,
            top,
            bottom,
        }
    }

    pub fn zero() -> Padding
        ensures { result ≡ padding_of 0 0 0 0 }
    {
        Padding::new(0, 0, 0, 0)
    }

    pub fn horizontal(value: u16) -> Padding
        ensures { result ≡ padding_of value value 0 0 }
    {
        Padding::new(value, value, 0, 0)
    }

    pub fn vertical(value: u16) -> Padding
        ensures { result ≡ padding_of 0 0 value value }
    {
        Padding::new(0, 0, value, value)
    }

    pub fn uniform(value: u16) -> Padding
        ensures { result ≡ padding_of value value value value }
    {
        Padding::new(value, value, value, value)
    }

    // Returns a padding that looks even, as a cell is about twice as high as wide. Doubling saturates at 65,535.
    pub fn proportional(value: u16) -> Padding
        ensures { result ≡ padding_of (held (2 * value)) (held (2 * value)) value value }
    {
        let twice = value.saturating_add(value);
        Padding::new(twice, twice, value, value)
    }

    pub fn symmetric(x: u16, y: u16) -> Padding
        ensures { result ≡ padding_of x x y y }
    {
        Padding::new(x, x, y, y)
    }

    pub fn left(value: u16) -> Padding
        ensures { result ≡ padding_of value 0 0 0 }
    {
        Padding::new(value, 0, 0, 0)
    }

    pub fn right(value: u16) -> Padding
        ensures { result ≡ padding_of 0 value 0 0 }
    {
        Padding::new(0, value, 0, 0)
    }

    pub fn top(value: u16) -> Padding
        ensures { result ≡ padding_of 0 0 value 0 }
    {
        Padding::new(0, 0, value, 0)
    }

    pub fn bottom(value: u16) -> Padding
        ensures { result ≡ padding_of 0 0 0 value }
    {
        Padding::new(0, 0, 0, value)
    }
}
