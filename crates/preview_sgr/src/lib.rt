// Writes a cell's colours and modifiers as an escape sequence.
#![tactic(auto)]

ghost use Rattle.std.specs.Prelude.{◌≡◌, [], ◌∷◌, ◌++◌, ◌+◌, ◌<◌, ◌≤◌, length};
ghost use Rattle.append_bytes.specs.WrittenExtra.{Written};
ghost use Rattle.arrayvec.specs.ArrayVec.{array_vec_len};
ghost use Rattle.cell.specs.Cell.{cell_from};
ghost use Rattle.preview_sgr.specs.SgrExtra.{digit, decimal, code, codes, colour, sgr};

use append_bytes::{push_all, put_all};
use arrayvec::ArrayVec;

fn last_digit(number: u64) -> u8
    ensures { result ≡ digit number }
{
    b'0' + (number % 10) as u8
}

// Appends a number below 1,000 in decimal. By hand: `decimal` takes any number, by its last three digits, and the library's doesn't.
#[tactic(auto, unfolding(crate::specs::SgrExtra::decimal))]
fn push_decimal<const N: usize>(text: &mut ArrayVec<u8, N>, number: u64)
    requires { array_vec_len text.old + 3 ≤ N }
    ensures written { text.new.items ≡ text.old.items ++ decimal number }
    ensures upper_bound { array_vec_len text.new ≤ array_vec_len text.old + 3 }
{
    if 100 <= number {
        text.push(last_digit(number / 100));
    }
    if 10 <= number {
        text.push(last_digit(number / 10));
    }
    text.push(last_digit(number));
}

// Appends a modifier's code, if its bit is 1.
#[tactic(auto, unfolding(crate::specs::SgrExtra::code))]
fn push_code<const N: usize>(text: &mut ArrayVec<u8, N>, bit: u64, number: u8)
    requires room { array_vec_len text.old + 2 ≤ N }
    requires number_bound { number < 10 }
    ensures written { text.new.items ≡ text.old.items ++ code bit number }
    ensures upper_bound { array_vec_len text.new ≤ array_vec_len text.old + 2 }
{
    if bit == 1 {
        text.push(b';');
        text.push(b'0' + number);
    }
}

// Appends the codes of all modifiers that are set.
fn push_codes<const N: usize>(text: &mut ArrayVec<u8, N>, modifiers: u64)
    requires { array_vec_len text.old + 18 ≤ N }
    ensures written { text.new.items ≡ text.old.items ++ codes modifiers 1 9 }
    ensures upper_bound { array_vec_len text.new ≤ array_vec_len text.old + 18 }
{
    let mut bits = modifiers;
    for number in 1..10 {
        push_code(text, bits % 2, number);
        bits /= 2;
    }
}

// Appends a colour, unless it is the terminal's default; `kind` is the digit 3 (51) for a foreground, 4 (52) for a background.
#[tactic(auto, unfolding(crate::specs::SgrExtra::colour))]
fn push_colour<const N: usize>(text: &mut ArrayVec<u8, N>, kind: u8, number: u64)
    requires { array_vec_len text.old + 9 ≤ N }
    ensures written { text.new.items ≡ text.old.items ++ colour kind number }
    ensures upper_bound { array_vec_len text.new ≤ array_vec_len text.old + 9 }
{
    if number != 0 {
        push_all(text, &[b';', kind, b'8', b';', b'5', b';']);
        push_decimal(text, number);
    }
}

// Appends the sequence of a cell, at most 40 bytes.
#[tactic(auto, unfolding(crate::specs::SgrExtra::sgr))]
pub fn push_style<const N: usize>(text: &mut ArrayVec<u8, N>, cell: u64)
    requires { array_vec_len text.old + 40 ≤ N }
    ensures written { text.new.items ≡ text.old.items ++ sgr cell }
    ensures upper_bound { array_vec_len text.new ≤ array_vec_len text.old + 40 }
{
    push_all(text, b"\x1b[0");
    push_codes(text, cell::modifiers(cell));
    push_colour(text, b'3', cell::foreground(cell));
    push_colour(text, b'4', cell::background(cell));
    text.push(b'm');
}

// Writes the sequence of a cell into a buffer at offset `at` and returns the offset of the next byte.
pub fn put_style(buffer: &mut [u8], at: usize, cell: u64) -> usize
    requires { at + 40 ≤ length buffer.old }
    ensures written { Written buffer.old at buffer.new result (sgr cell) }
    ensures upper_bound { result ≤ at + 40 }
{
    let mut text = ArrayVec::<u8, 40>::new();
    push_style(&mut text, cell);
    put_all(buffer, at, text.as_slice())
}
