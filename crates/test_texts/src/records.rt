// Records of the test texts.
ghost use Rattle.std.specs.Prelude.{◌≡◌, true, false, ◌<◌};
ghost use Rattle.text.specs.Record.{is_head, alignment_of, position_of, zeros_of, width_code_of, whitespace_of};

use text::glyph::{STYLES, SYMBOLS};

// Returns a head with an alignment.
#[tactic(auto, using(crate::proofs::Fields::head_fields))]
pub fn head(alignment: u32) -> u32
    requires { alignment < 4 }
    ensures result_value { is_head result ≡ true }
    ensures result_value_2 { alignment_of result ≡ alignment }
    ensures result_value_3 { position_of result ≡ 0 }
    ensures result_value_4 { zeros_of result ≡ 0 }
{
    text::head::pack(alignment, 0)
}

// Returns a glyph whose symbol and style are taken from x.
#[tactic(auto, using(crate::proofs::Fields::glyph_fields))]
pub fn glyph(width: u32, is_space: bool, x: u32) -> u32
    requires { width < 8 }
    ensures result_value { is_head result ≡ false }
    ensures result_value_2 { width_code_of result ≡ width }
    ensures result_value_3 { whitespace_of result ≡ is_space }
{
    text::glyph::pack(x % SYMBOLS, width, is_space, x % STYLES)
}
