// Every text line of up to five glyphs of seven kinds, at limits 1 to 5, trimmed and untrimmed; and every one of up to four glyphs of
// eight kinds, the last ambiguous, the same, read narrow and wide.
ghost use Rattle.std.specs.Prelude.{◌<◌, ◌≤◌, length};

use crate::texts::ambiguous_of;
use crate::{Case, records};
use text::{Alignment, AmbiguousWidth};

// Returns the glyph of a kind: 0 to 3 are solid of that width, 4 to 6 whitespace of width 0 to 2, 7 is solid and ambiguous.
fn glyph(kind: u32, x: u32) -> u32
    requires { kind < 8 }
{
    if kind == 7 {
        return records::glyph(7, false, x);
    }
    records::glyph(kind % 4, 4 <= kind, x)
}

// Writes the head of a text line with the default alignment.
fn write_head(text: &mut [u32])
    requires { 0 < length text.old }
{
    text[0] = records::head(3);
}

// Writes the glyphs of text line `number` after the head and returns their end. Each list of kinds
// has one number: its digits in base `kinds`, counted from 1, are the kinds.
fn write_glyphs(text: &mut [u32], number: u32, kinds: u32) -> usize
    requires { (0 < length text.old) × (0 < kinds) × (kinds ≤ 8) }
    ensures { result ≤ length text.new }
{
    let mut rest = number;
    for n in 1..text.len() {
        if rest == 0 {
            return n;
        }
        text[n] = glyph((rest - 1) % kinds, rest);
        rest = (rest - 1) / kinds;
    }
    text.len()
}

// Writes text line `line` and returns case `number`, which is one of its ten of a setting, at columns 0 to 9.
fn write_line_case(
    text: &mut [u32],
    number: u32,
    line: u32,
    kinds: u32,
    ambiguous: AmbiguousWidth,
) -> Case
    requires { (0 < length text.old) × (0 < kinds) × (kinds ≤ 8) }
    ensures { result.length ≤ length text.new }
{
    let limit = (1 + number % 10 / 2) as u16;
    let trim = number % 2 == 0;
    let column = (number % 10 + line % 10) % 10;
    write_head(text);
    let length = write_glyphs(text, line, kinds);
    Case {
        number,
        length,
        default_alignment: Alignment::Left,
        limit,
        trim,
        column,
        ambiguous,
    }
}

// Writes the text of a case without ambiguous glyphs and returns the case. Each text line has ten.
pub fn write_case(text: &mut [u32], number: u32) -> Case
    requires { 0 < length text.old }
    ensures { result.length ≤ length text.new }
{
    let line = number / 10;
    write_line_case(text, number, line, 7, ambiguous_of(line))
}

// Writes the text of a case with ambiguous glyphs among the kinds and returns the case. Each text line has twenty, ten of them read
// narrow.
pub fn write_ambiguous_case(text: &mut [u32], number: u32) -> Case
    requires { 0 < length text.old }
    ensures { result.length ≤ length text.new }
{
    write_line_case(text, number, number / 20, 8, ambiguous_of(number / 10))
}
