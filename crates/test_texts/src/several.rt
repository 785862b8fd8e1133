// Random texts of several short text lines, at limits 0 to 8 and columns 0 to 9.
ghost use Rattle.std.specs.Prelude.{◌≤◌, length};

use crate::random::{below, next, seed};
use crate::texts::Manner;
use crate::{Case, texts};

// Writes the text of a case and returns the case.
pub fn write_case(text: &mut [u32], number: u32) -> Case
    requires { 24 ≤ length text.old }
    ensures { result.length ≤ 24 }
{
    let a = seed(number);
    let b = next(a);
    let c = next(b);
    let d = next(c);
    let e = next(d);
    let f = next(e);
    let manner = Manner {
        heads: 2 + below(a, 6),
        widths: 1 + below(b, 5),
        spaces: 1 + below(c, 5),
    };
    let length = below(d, 25) as usize;
    let limit = below(e, 9) as u16;
    texts::write_random_case(&mut text[..length], manner, f, number, limit, below(f, 10))
}
