// Random 64-bit words.
ghost use Rattle.std.specs.Prelude.{◌<◌, ◌^◌};

use test_texts::random::next;

// Returns the fourth random number after x.
pub fn four_on(x: u32) -> u32 {
    next(next(next(next(x))))
}

// Returns the upper halves of two numbers, concatenated.
fn halves(first: u32, second: u32) -> u64
    ensures { result < 2 ^ 32 }
{
    u64::from(first / 65536 * 65536 + second / 65536)
}

// Returns the upper halves of x and of the next three random numbers, concatenated.
fn word(x: u32) -> u64 {
    let b = next(x);
    let c = next(b);
    let d = next(c);
    halves(x, b) * 4294967296 + halves(c, d)
}

// Writes words that are multiples of `unit`, each made from four random numbers.
pub fn write_words(words: &mut [u64], unit: u64, seed: u32)
    requires { 0 < unit }
{
    let mut x = seed;
    for place in words {
        let found = word(x);
        *place = found - found % unit;
        x = four_on(x);
    }
}
