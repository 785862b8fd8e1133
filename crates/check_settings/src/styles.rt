// Causes 2, 6 and 7.
ghost use Rattle.std.specs.Prelude.{◌≡◌};
ghost use Rattle.text.specs.Lists.{some};
ghost use Rattle.refuse.specs.Causes.{zeros_set, styles_wrong, no_style, style_numbers_wrong, too_large, symbols_wrong};

use refuse::Ceilings;
use text::glyph::SYMBOLS;

// Whether a style's zeros aren't 0.
fn has_zeros_set(style: u64) -> bool
    ensures { result ≡ zeros_set style }
{
    style::zeros(style) != 0
}

// Whether the zeros of any style aren't 0.
fn any_zeros_set(styles: &[u64]) -> bool
    ensures { result ≡ some zeros_set styles.now }
{
    styles.iter().any(|style| has_zeros_set(*style))
}

// Cause 2: whether there are too many styles, or one whose zeros aren't 0.
#[tactic(auto, unfolding(refuse::specs::Causes::styles_wrong))]
pub fn styles_wrong(most: Ceilings, styles: &[u64]) -> bool
    ensures { result ≡ styles_wrong most styles.now }
{
    most.styles < styles.len() || any_zeros_set(styles)
}

// Whether a style number isn't below the count of styles.
fn has_no_style(count: usize, number: u8) -> bool
    ensures { result ≡ no_style count number }
{
    count <= number as usize
}

// Cause 6 for settings: whether a style number isn't below the count of styles.
pub fn style_numbers_wrong(count: usize, numbers: &[u8]) -> bool
    ensures { result ≡ style_numbers_wrong count numbers.now }
{
    numbers.iter().any(|number| has_no_style(count, *number))
}

// Whether a symbol needs more than 21 bits.
fn is_too_large(symbol: u32) -> bool
    ensures { result ≡ too_large symbol }
{
    SYMBOLS <= symbol
}

// Cause 7: whether a symbol is 2,097,152 or more.
pub fn symbols_wrong(symbols: &[u32]) -> bool
    ensures { result ≡ symbols_wrong symbols.now }
{
    symbols.iter().any(|symbol| is_too_large(*symbol))
}
