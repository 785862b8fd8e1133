// Texts of the test notices.
ghost use Rattle.std.specs.Prelude.{◌<◌, ◌≤◌, length};

use test_texts::random::{below, next};
use test_texts::texts::{Manner, write_random};

// Returns the exclusive bound of width codes: mostly codes up to 3, any code once in eight; the ambiguous one comes besides.
fn widths(x: u32) -> u32
    ensures { (0 < result) × (result ≤ 8) }
{
    match below(x, 8) {
        0 | 1 => 2,
        2..=4 => 3,
        5 | 6 => 4,
        _ => 8,
    }
}

// Returns the number of records in a text: `most`, none, or a number between.
fn length_of(x: u32, most: u32) -> u32
    requires { most ≤ 1024 }
    ensures { result ≤ most }
{
    match below(x, 16) {
        0..=3 => most,
        4 => 0,
        _ => below(next(x), most + 1),
    }
}

// Writes a text of up to `most` records, made from x and the random numbers after it, and returns its number of records. Its text
// lines have at most about `most / 2` records on average.
pub fn write_text(text: &mut [u32], most: u32, x: u32) -> usize
    requires le_most { (2 ≤ most) × (most ≤ 1024) }
    requires in_bounds { 1024 ≤ length text.old }
    ensures { result ≤ 1024 }
{
    let b = next(x);
    let c = next(b);
    let d = next(c);
    let manner = Manner {
        heads: 2 + below(x, most / 2),
        widths: widths(b),
        spaces: 2 + below(c, 6),
    };
    let n = length_of(d, most) as usize;
    write_random(&mut text[..n], manner, next(next(d)));
    n
}
