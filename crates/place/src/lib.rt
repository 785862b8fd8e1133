// What becomes of a glyph of a composed line at an edge: the right edge of the text's area where it is drawn, the limit where it is
// tallied.
#![tactic(auto)]

ghost use Rattle.std.specs.Prelude.{◌≡◌, ◌+◌, ◌^◌, ◌<◌};
ghost use Rattle.place.specs.Place.{place_of};

// `Halved` starts inside and runs past the edge, `Outside` starts at the edge or past it; both are clipped.
#[derive(Clone, Copy)]
pub enum Place {
    ZeroWidth,
    Placed,
    Halved,
    Outside,
}

impl Place {
    // Returns the place of a glyph by its start column and its width.
    pub fn of_glyph(edge: usize, start: usize, width: usize) -> Place
        requires { start + width < 2 ^ 64 }
        ensures { result ≡ place_of edge start width }
    {
        if width == 0 {
            return Place::ZeroWidth;
        }
        if start + width <= edge {
            return Place::Placed;
        }
        if start < edge {
            return Place::Halved;
        }
        Place::Outside
    }
}
