// Arithmetic modulo 2^32.
ghost use Rattle.std.specs.Prelude.{◌≡◌};
ghost use Rattle.test_texts.specs.NumbersExtra.{stepped};

// Returns x * by + plus, modulo 2^32.
pub fn step(x: u32, by: u32, plus: u32) -> u32
    ensures { result ≡ stepped x by plus }
{
    x.wrapping_mul(by).wrapping_add(plus)
}
