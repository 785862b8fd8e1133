// Positions and heads of titles, and the titles of the cases for the inner area: up to two, of up to three records each.
ghost use Rattle.std.specs.Prelude.{◌<◌, ◌≤◌, length};

use test_texts::random::{below, next};
use text::TitlePosition;

// Returns the title position with a number.
pub fn position_of(number: u32) -> TitlePosition {
    if number % 2 == 0 {
        return TitlePosition::Top;
    }
    TitlePosition::Bottom
}

// Returns a title head of random alignment.
pub fn head(position: u32, x: u32) -> u32
    requires { position < 4 }
{
    text::head::pack(below(x, 4), position)
}

// Returns the head of a right title in a block whose default alignment is right.
pub fn right_head(position: u32, x: u32) -> u32
    requires { position < 4 }
{
    text::head::pack(2 + below(x, 2), position)
}

// Returns the record at index `place`. The first title is at the top, the bottom or the block's position, the second at the
// bottom. Any 31-bit number is a glyph.
fn record_at(place: usize, kind: u32, x: u32) -> u32
    requires { kind ≤ 16 }
{
    match place {
        0 => head((kind + 2) % 3, x),
        3 => head(1, x),
        _ => x / 2,
    }
}

// Returns the number of records of a kind's titles: no title, one with up to two glyphs, or two.
fn count(kind: u32, x: u32) -> usize
    ensures { result ≤ 6 }
{
    match kind {
        0 => 0,
        1..=3 => (1 + below(x, 3)) as usize,
        _ => (4 + below(x, 3)) as usize,
    }
}

// Writes the titles of a kind and returns their number of records.
pub fn write_titles(titles: &mut [u32], kind: u32, seed: u32) -> usize
    requires in_bounds { 6 ≤ length titles.old }
    requires kind_bound { kind ≤ 16 }
    ensures { result ≤ 6 }
{
    let count = count(kind, seed);
    let mut x = seed;
    for (place, record) in titles[..count].iter_mut().enumerate() {
        *record = record_at(place, kind, x);
        x = next(x);
    }
    count
}
