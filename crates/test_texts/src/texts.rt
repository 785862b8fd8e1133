// Random texts.
ghost use Rattle.std.specs.Prelude.{◌≡◌, ◌<◌, ◌≤◌, length};

use crate::random::{below, next};
use crate::{Case, records};
use text::{Alignment, AmbiguousWidth};

// Distribution of a random text: one record in `heads` is a head, width codes are below `widths` or, as often as each of these,
// ambiguous, and one glyph in `spaces` is whitespace.
#[derive(Clone, Copy)]
pub struct Manner {
    pub heads: u32,
    pub widths: u32,
    pub spaces: u32,
    ghost some_heads: { 0 < heads },
    ghost some_widths: { 0 < widths },
    ghost widest: { widths ≤ 8 },
    ghost some_spaces: { 0 < spaces },
}

// Returns the alignment with a number.
pub fn alignment_of(number: u32) -> Alignment {
    match number % 3 {
        0 => Alignment::Left,
        1 => Alignment::Center,
        _ => Alignment::Right,
    }
}

// Returns a reading of ambiguous glyphs: even numbers are narrow, odd ones wide.
pub fn ambiguous_of(number: u32) -> AmbiguousWidth {
    if number % 2 == 0 {
        return AmbiguousWidth::Narrow;
    }
    AmbiguousWidth::Wide
}

// True once in `times`.
fn once_in(x: u32, times: u32) -> bool
    requires { 0 < times }
{
    below(x, times) == 0
}

// Returns the width code that a number up to `widths` stands for: `widths` itself for the ambiguous one.
fn width_code(number: u32, widths: u32) -> u32
    requires { (number ≤ widths) × (widths ≤ 8) }
    ensures { result < 8 }
{
    if number == widths {
        return 7;
    }
    number
}

// Returns the record at index `place`, made from x and the next two random numbers. Record 0 is a head.
fn any_record(place: usize, x: u32, manner: Manner) -> u32 {
    let second = next(x);
    let third = next(second);
    if place == 0 || once_in(x, manner.heads) {
        return records::head(below(second, 4));
    }
    records::glyph(
        width_code(below(second, manner.widths + 1), manner.widths),
        once_in(third, manner.spaces),
        third,
    )
}

// Writes a text of random records.
pub fn write_random(text: &mut [u32], manner: Manner, seed: u32) {
    let mut x = seed;
    for (place, record) in text.iter_mut().enumerate() {
        *record = any_record(place, x, manner);
        x = next(next(next(x)));
    }
}

// Writes a text of random records and returns case `number`, of this text.
pub fn write_random_case(
    text: &mut [u32],
    manner: Manner,
    seed: u32,
    number: u32,
    limit: u16,
    column: u32,
) -> Case
    ensures { result.length ≡ length text.old }
{
    write_random(text, manner, seed);
    Case {
        number,
        length: text.len(),
        default_alignment: alignment_of(number),
        limit,
        trim: number % 2 == 0,
        column,
        ambiguous: ambiguous_of(number / 6),
    }
}
