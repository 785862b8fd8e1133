// Writes a symbol as UTF-8. One that can't be shown is replaced, so that no control character reaches the terminal.
#![tactic(auto)]

ghost use Rattle.std.specs.Prelude.{◌≡◌, ◌+◌, ◌<◌, ◌≤◌, ◌++◌, length};
ghost use Rattle.append_bytes.specs.WrittenExtra.{Written};
ghost use Rattle.arrayvec.specs.ArrayVec.{array_vec_len};
ghost use Rattle.preview_utf8.specs.Utf8Extra.{hidden, shown, following, encoded, utf8};

use append_bytes::put_all;
use arrayvec::ArrayVec;

// Whether a symbol is a control character, a surrogate or beyond the last code point.
#[tactic(auto, unfolding(crate::specs::Utf8Extra::hidden, crate::specs::Utf8Extra::in_range))]
fn is_hidden(symbol: u64) -> bool
    ensures { result ≡ hidden symbol }
{
    symbol < 32
        || (127..=159).contains(&symbol)
        || (55296..=57343).contains(&symbol)
        || 1114111 < symbol
}

// Returns the symbol, or the replacement character if it can't be shown.
#[tactic(auto, unfolding(crate::specs::Utf8Extra::shown, crate::specs::Utf8Extra::hidden))]
fn shown_symbol(symbol: u64) -> u64
    ensures { (result ≡ shown symbol) × (result < 1114112) }
{
    if is_hidden(symbol) { 65533 } else { symbol }
}

// Returns the continuation byte that holds the lowest six bits.
fn following(number: u64) -> u8
    ensures { result ≡ following number }
{
    (128 + number % 64) as u8
}

// Appends a code point. By hand: the definition `encoded` and the edit `five_bits` speak of its bytes.
#[tactic(auto, unfolding(crate::specs::Utf8Extra::encoded))]
fn push_code_point<const N: usize>(text: &mut ArrayVec<u8, N>, symbol: u64)
    requires room { array_vec_len text.old + 4 ≤ N }
    requires symbol_bound { symbol < 1114112 }
    ensures written { text.new.items ≡ text.old.items ++ encoded symbol }
    ensures upper_bound { array_vec_len text.new ≤ array_vec_len text.old + 4 }
{
    if symbol < 128 {
        text.push(symbol as u8);
        return;
    }
    if symbol < 2048 {
        text.push((192 + symbol / 64) as u8);
        text.push(following(symbol));
        return;
    }
    if symbol < 65536 {
        text.push((224 + symbol / 4096) as u8);
        text.push(following(symbol / 64));
        text.push(following(symbol));
        return;
    }
    text.push((240 + symbol / 262144) as u8);
    text.push(following(symbol / 4096));
    text.push(following(symbol / 64));
    text.push(following(symbol));
}

// Appends a symbol's bytes, at most four.
#[tactic(auto, unfolding(crate::specs::Utf8Extra::utf8))]
pub fn push_symbol<const N: usize>(text: &mut ArrayVec<u8, N>, symbol: u64)
    requires { array_vec_len text.old + 4 ≤ N }
    ensures written { text.new.items ≡ text.old.items ++ utf8 symbol }
    ensures upper_bound { array_vec_len text.new ≤ array_vec_len text.old + 4 }
{
    push_code_point(text, shown_symbol(symbol));
}

// Writes a symbol's bytes into a buffer at offset `at` and returns the offset of the next byte.
pub fn put_symbol(buffer: &mut [u8], at: usize, symbol: u64) -> usize
    requires { at + 4 ≤ length buffer.old }
    ensures written { Written buffer.old at buffer.new result (utf8 symbol) }
    ensures upper_bound { result ≤ at + 4 }
{
    let mut text = ArrayVec::<u8, 4>::new();
    push_symbol(&mut text, symbol);
    put_all(buffer, at, text.as_slice())
}
