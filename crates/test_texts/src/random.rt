// Reproducible pseudo-random numbers: a linear congruential generator.
ghost use Rattle.std.specs.Prelude.{◌≡◌, ◌<◌};
ghost use Rattle.test_texts.specs.NumbersExtra.{stepped, following};

use crate::numbers::step;

// Returns the first random number of a case.
pub fn seed(number: u32) -> u32
    ensures { result ≡ stepped number 2654435769 1 }
{
    step(number, 2654435769, 1)
}

pub fn next(x: u32) -> u32
    ensures { result ≡ following x }
{
    step(x, 1664525, 1013904223)
}

// Returns a number below `end`, taken from the upper half of x.
pub fn below(x: u32, end: u32) -> u32
    requires { 0 < end }
    ensures { result < end }
{
    x / 65536 % end
}
