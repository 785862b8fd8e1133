// Writes the output of the program `listlines`: to a text in fixed memory, or to a borrowed buffer.
#![tactic(auto)]

ghost use Rattle.std.specs.Prelude.{◌≡◌, ◌+◌, ◌*◌, ◌<◌, ◌≤◌, ◌++◌, length};
ghost use Rattle.append_bytes.specs.WrittenExtra.{Written};
ghost use Rattle.arrayvec.specs.ArrayVec.{array_vec_len};
ghost use Rattle.listlines_output.specs.Output.{decimal, number_text, count_text, refused_text};
ghost use Rattle.listlines_output.specs.EntriesExtra.{entry_text, entries_text};

use append_bytes::{push_all, put_all};
use arrayvec::ArrayVec;

const BLANK: u8 = 32;

const LINE_END: u8 = 10;

// Appends a number below 100,000 in decimal.
#[tactic(auto, using(crate::proofs::Decimals::decimals))]
fn push_decimal<const N: usize>(text: &mut ArrayVec<u8, N>, number: u64)
    requires number_bound { number < 100000 }
    requires room { array_vec_len text.old + 5 ≤ N }
    ensures written { text.new.items ≡ text.old.items ++ decimal number }
    ensures upper_bound { array_vec_len text.new ≤ array_vec_len text.old + 5 }
{
    let mut digits = itoa::Buffer::new();
    push_all(text, digits.format(number).as_bytes());
}

// Appends a number below 100,000 and the byte after it.
#[tactic(auto, unfolding(crate::specs::Output::number_text))]
fn push_number<const N: usize>(text: &mut ArrayVec<u8, N>, number: u64, after: u8)
    requires number_bound { number < 100000 }
    requires room { array_vec_len text.old + 6 ≤ N }
    ensures written { text.new.items ≡ text.old.items ++ number_text number after }
    ensures upper_bound { array_vec_len text.new ≤ array_vec_len text.old + 6 }
{
    push_decimal(text, number);
    text.push(after);
}

// Appends the line of an entry, at most 30 bytes.
#[tactic(auto, unfolding(crate::specs::EntriesExtra::entry_text, crate::specs::Output::fields_text))]
fn push_entry<const N: usize>(text: &mut ArrayVec<u8, N>, entry: u64)
    requires { array_vec_len text.old + 30 ≤ N }
    ensures written { text.new.items ≡ text.old.items ++ entry_text entry }
    ensures upper_bound { array_vec_len text.new ≤ array_vec_len text.old + 30 }
{
    push_number(text, entry::first(entry), BLANK);
    push_number(text, entry::end(entry), BLANK);
    push_number(text, entry::width(entry), BLANK);
    push_number(text, entry::alignment(entry), BLANK);
    push_number(text, entry::mark(entry), LINE_END);
}

// Appends the lines of entries.
fn push_entries<const N: usize>(text: &mut ArrayVec<u8, N>, entries: &[u64])
    requires { array_vec_len text.old + 30 * length entries.now ≤ N }
    ensures written { text.new.items ≡ text.old.items ++ entries_text entries.now }
    ensures upper_bound { array_vec_len text.new ≤ array_vec_len text.old + 30 * length entries.now }
{
    for entry in entries {
        push_entry(text, *entry);
    }
}

// Appends the count of lines.
#[tactic(auto, unfolding(crate::specs::Output::count_text))]
fn push_count<const N: usize>(text: &mut ArrayVec<u8, N>, count: u64)
    requires count_bound { count < 100000 }
    requires room { array_vec_len text.old + 12 ≤ N }
    ensures { text.new.items ≡ text.old.items ++ count_text count }
{
    push_all(text, b"lines ");
    push_number(text, count, LINE_END);
}

// Appends the output for entries: their lines, then their count.
pub fn push_lines<const N: usize>(text: &mut ArrayVec<u8, N>, entries: &[u64])
    requires entries_len_bound { length entries.now < 100000 }
    requires room { array_vec_len text.old + (30 * length entries.now + 12) ≤ N }
    ensures { text.new.items ≡ text.old.items ++ (entries_text entries.now ++ count_text (length entries.now)) }
{
    push_entries(text, entries);
    push_count(text, entries.len() as u64);
}

// Appends the output for a refusal.
#[tactic(auto, unfolding(crate::specs::Output::refused_text))]
pub fn push_refused<const N: usize>(text: &mut ArrayVec<u8, N>, number: u32)
    requires number_bound { number < 100000 }
    requires room { array_vec_len text.old + 14 ≤ N }
    ensures { text.new.items ≡ text.old.items ++ refused_text number }
{
    push_all(text, b"refused ");
    push_number(text, u64::from(number), LINE_END);
}

// Writes the lines of entries at the start of a buffer and returns their length in bytes.
fn put_entries(buffer: &mut [u8], entries: &[u64]) -> usize
    requires { 30 * length entries.now ≤ length buffer.old }
    ensures written { Written buffer.old 0 buffer.new result (entries_text entries.now) }
    ensures upper_bound { result ≤ 30 * length entries.now }
{
    let mut next = 0;
    for entry in entries {
        let mut text = ArrayVec::<u8, 30>::new();
        push_entry(&mut text, *entry);
        next = put_all(buffer, next, text.as_slice());
    }
    next
}

// Writes the count of lines into a buffer at offset `at` and returns the offset of the next byte.
fn put_count(buffer: &mut [u8], at: usize, count: u64) -> usize
    requires count_bound { count < 100000 }
    requires at_in_bounds { at + 12 ≤ length buffer.old }
    ensures { Written buffer.old at buffer.new result (count_text count) }
{
    let mut text = ArrayVec::<u8, 12>::new();
    push_count(&mut text, count);
    put_all(buffer, at, text.as_slice())
}

// Writes the output for entries at the start of a buffer: their lines, then their count. Returns its length.
pub fn put_lines(buffer: &mut [u8], entries: &[u64]) -> usize
    requires entries_len_bound { length entries.now < 100000 }
    requires entries_in_bounds { 30 * length entries.now + 12 ≤ length buffer.old }
    ensures { let lines = entries_text entries.now ++ count_text (length entries.now) in
        Written buffer.old 0 buffer.new result lines }
{
    let next = put_entries(buffer, entries);
    put_count(buffer, next, entries.len() as u64)
}

// Writes the output for a refusal at the start of a buffer, and returns its length.
pub fn put_refused(buffer: &mut [u8], number: u32) -> usize
    requires number_bound { number < 100000 }
    requires in_bounds { 14 ≤ length buffer.old }
    ensures { Written buffer.old 0 buffer.new result (refused_text number) }
{
    let mut text = ArrayVec::<u8, 14>::new();
    push_refused(&mut text, number);
    put_all(buffer, 0, text.as_slice())
}
