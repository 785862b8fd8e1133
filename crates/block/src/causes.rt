// Checks of a block's settings: causes 6 (style numbers) and 7 (symbols).
ghost use Rattle.std.specs.Prelude.{◌≡◌};
ghost use Rattle.refuse.specs.Causes.{style_numbers_wrong, symbols_wrong};
ghost use Rattle.block.specs.Causes.{shadow_styles, block_styles, shadow_symbols, border_symbols, block_symbols};

use crate::{Block, BorderSet, Effect, Shadow};
use check_settings::styles;

// Whether the shadow's style number is not below the count of styles (cause 6).
fn shadow_style_wrong(count: usize, shadow: Shadow) -> bool
    ensures { result ≡ style_numbers_wrong count (shadow_styles shadow) }
{
    let Shadow::Present {
        effect: _,
        style,
        x: _,
        y: _,
    } = shadow
    else {
        return false;
    };
    styles::style_numbers_wrong(count, &[style])
}

impl Block {
    // Whether a style number of the settings is not below the count of styles (cause 6).
    #[tactic(auto, unfolding(crate::specs::Causes::block_styles))]
    pub fn style_numbers_wrong(self, count: usize) -> bool
        ensures { result ≡ style_numbers_wrong count (block_styles self) }
    {
        styles::style_numbers_wrong(count, &[self.border_style, self.style, self.titles_style])
            || shadow_style_wrong(count, self.shadow)
    }

    // Whether a border or shadow symbol is 2,097,152 or more (cause 7).
    #[tactic(auto, unfolding(crate::specs::Causes::block_symbols))]
    pub fn symbols_wrong(self) -> bool
        ensures { result ≡ symbols_wrong (block_symbols self) }
    {
        self.border_set.symbols_wrong() || shadow_symbol_wrong(self.shadow)
    }
}

impl BorderSet {
    // Whether one of the eight border symbols is too large (cause 7), even if its side has no border.
    #[tactic(auto, unfolding(crate::specs::Causes::border_symbols))]
    fn symbols_wrong(self) -> bool
        ensures { result ≡ symbols_wrong (border_symbols self) }
    {
        styles::symbols_wrong(&[
            self.top_left,
            self.top_right,
            self.bottom_left,
            self.bottom_right,
            self.vertical_left,
            self.vertical_right,
            self.horizontal_top,
            self.horizontal_bottom,
        ])
    }
}

// Whether the shadow's symbol is too large (cause 7).
fn shadow_symbol_wrong(shadow: Shadow) -> bool
    ensures { result ≡ symbols_wrong (shadow_symbols shadow) }
{
    let Shadow::Present {
        effect,
        style: _,
        x: _,
        y: _,
    } = shadow
    else {
        return false;
    };
    let Effect::Symbol(symbol) = effect else {
        return false;
    };
    styles::symbols_wrong(&[symbol])
}
