// Random texts of up to 16,384 records, at limits 1 to 20, 80 and 4,096, and columns below 8,192.
ghost use Rattle.std.specs.Prelude.{◌<◌, ◌≤◌, length};

use crate::random::{below, next, seed};
use crate::texts::Manner;
use crate::{Case, texts};

// Returns n such that one record in n is a head.
fn heads(number: u32) -> u32
    ensures { 0 < result }
{
    match number {
        0 => 3,
        1 => 20,
        2 => 300,
        _ => 16384,
    }
}

// Returns the exclusive bound of the column: longer lines are scrolled further.
fn columns(number: u32) -> u32
    ensures { 0 < result }
{
    match number {
        0 => 8,
        1 => 64,
        2 => 1024,
        _ => 8192,
    }
}

// Returns the column: 0 for one text in five.
fn column_of(number: u32, end: u32, x: u32) -> u32
    requires { 0 < end }
{
    if number % 5 == 0 {
        return 0;
    }
    below(x, end)
}

fn limit(number: u32) -> u16
    ensures { result ≤ 4096 }
{
    if number < 20 {
        return (1 + number) as u16;
    }
    if number < 23 {
        return 80;
    }
    4096
}

// Returns the number of records: the maximum that a call accepts for one text in eight.
fn length_of(number: u32, x: u32) -> usize
    ensures { result ≤ 16384 }
{
    if number / 2 % 8 == 0 {
        return 16384;
    }
    below(x, 16385) as usize
}

// Writes the text of a case and returns the case.
pub fn write_case(text: &mut [u32], number: u32) -> Case
    requires { 16384 ≤ length text.old }
    ensures { result.length ≤ 16384 }
{
    let a = seed(number);
    let b = next(a);
    let c = next(b);
    let d = next(c);
    let e = next(d);
    let f = next(e);
    let kind = below(a, 4);
    let manner = Manner {
        heads: heads(kind),
        widths: 1 + below(b, 8),
        spaces: 1 + below(c, 12),
    };
    let length = length_of(number, d);
    let limit = limit(below(e, 26));
    let column = column_of(number, columns(kind), f);
    texts::write_random_case(&mut text[..length], manner, f, number, limit, column)
}
