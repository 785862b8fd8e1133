// Reads numbers from bytes, high byte first.
ghost use Rattle.std.specs.Prelude.{◌≡◌, ◌+◌, ◌<◌, length};
ghost use Rattle.preview_file.specs.NumbersExtra.{number2, number4, number8, signed};

#[tactic(auto, unfolding(crate::specs::NumbersExtra::number2))]
pub fn number_2(input: &[u8], at: usize) -> u16
    requires { at + 1 < length input.now }
    ensures { result ≡ number2 input.now at }
{
    u16::from_be_bytes([input[at], input[at + 1]])
}

#[tactic(auto, unfolding(crate::specs::NumbersExtra::number4, crate::specs::NumbersExtra::number2))]
pub fn number_4(input: &[u8], at: usize) -> u32
    requires { at + 3 < length input.now }
    ensures { result ≡ number4 input.now at }
{
    u32::from_be_bytes([input[at], input[at + 1], input[at + 2], input[at + 3]])
}

#[tactic(auto, unfolding(crate::specs::NumbersExtra::number8, crate::specs::NumbersExtra::number4, crate::specs::NumbersExtra::number2))]
pub fn number_8(input: &[u8], at: usize) -> u64
    requires { at + 7 < length input.now }
    ensures { result ≡ number8 input.now at }
{
    u64::from_be_bytes([
        input[at],
        input[at + 1],
        input[at + 2],
        input[at + 3],
        input[at + 4],
        input[at + 5],
        input[at + 6],
        input[at + 7],
    ])
}

// Returns a 16-bit number as a count.
pub fn count(input: &[u8], at: usize) -> usize
    requires { at + 1 < length input.now }
    ensures { result ≡ number2 input.now at }
{
    usize::from(number_2(input, at))
}

// Converts a 32-bit number from two's complement.
#[tactic(auto, unfolding(crate::specs::NumbersExtra::signed))]
pub fn signed(number: u32) -> i32
    ensures { result ≡ signed number }
{
    number.cast_signed()
}
