// Titles of the blocks to draw: any number, of any alignment and position, or all at the right.
ghost use Rattle.std.specs.Prelude.{◌<◌, ◌≤◌, ◌+◌, length};

use crate::borders::symbol;
use crate::titles::{head, right_head};
use crate::words::four_on;
use test_texts::random::{below, next, seed};

// Number of titles, maximum glyphs in each, whether all are right titles, and exclusive bound of their style numbers: numbers of titles
// and glyphs that calls accept, with one to eight styles.
#[derive(Clone, Copy)]
pub struct Manner {
    pub titles: u32,
    pub glyphs: u32,
    pub right: bool,
    pub styles: u32,
    ghost few_titles: { titles ≤ 16 },
    ghost few_glyphs: { glyphs ≤ 256 },
    ghost some_styles: { 0 < styles },
    ghost few_styles: { styles ≤ 8 },
}

// Returns a head of random position, and of random alignment unless it is to be a right title's.
fn any_head(x: u32, right: bool) -> u32 {
    let position = below(next(x), 3);
    if right {
        return right_head(position, x);
    }
    head(position, x)
}

// Returns the head of a title. About half of the titles share one, so that several are side by side.
fn head_of(x: u32, common: u32, right: bool) -> u32 {
    if below(x, 2) == 0 {
        return common;
    }
    any_head(next(x), right)
}

// Returns the number of glyphs in a title: `most`, none, or a number between.
fn length_of(x: u32, most: u32) -> u32
    requires { most ≤ 256 }
    ensures { result ≤ most }
{
    match below(x, 8) {
        0 | 1 => most,
        2 => 0,
        _ => below(next(x), most + 1),
    }
}

// Returns a width code: mostly 0 to 3 or ambiguous, any once in sixteen.
fn width(x: u32) -> u32
    ensures { result < 8 }
{
    match below(x, 16) {
        0 | 1 => 0,
        2..=7 => 1,
        8 | 9 => 7,
        10..=12 => 2,
        13 | 14 => 3,
        _ => below(next(x), 8),
    }
}

// Returns a glyph made from x and the next three random numbers.
fn glyph(x: u32, styles: u32) -> u32
    requires { (0 < styles) × (styles ≤ 8) }
{
    let y = next(x);
    let z = next(next(y));
    text::glyph::pack(symbol(x), width(y), below(z, 2) == 1, below(z, styles))
}

// Writes a title: its head, then glyphs, each made from four random numbers.
fn write_title(title: &mut [u32], head: u32, styles: u32, seed: u32)
    requires not_empty { 0 < length title.old }
    requires styles_nonzero { (0 < styles) × (styles ≤ 8) }
{
    title[0] = head;
    let mut x = seed;
    for record in &mut title[1..] {
        *record = glyph(x, styles);
        x = four_on(x);
    }
}

// Returns the end of the title whose head is at `place`.
fn end_of(place: usize, most: u32, x: u32) -> usize
    requires most_bound { most ≤ 256 }
    requires place_bound { place ≤ 4112 }
    ensures { (place < result) × (result ≤ place + 257) }
{
    place + 1 + (length_of(x, most) as usize)
}

// Writes titles made from x and the random numbers after it, and returns their number of records: at most 16 heads, each with 256
// glyphs.
pub fn write_many(titles: &mut [u32], manner: Manner, x: u32) -> usize
    requires { 4112 ≤ length titles.old }
    ensures { result ≤ 4112 }
{
    let common = any_head(x, manner.right);
    let mut y = next(next(x));
    let mut place = 0;
    for _i in 0..manner.titles {
        let z = four_on(y);
        let end = end_of(place, manner.glyphs, z);
        let head = head_of(y, common, manner.right);
        write_title(&mut titles[place..end], head, manner.styles, seed(y));
        place = end;
        y = next(next(z));
    }
    place
}
