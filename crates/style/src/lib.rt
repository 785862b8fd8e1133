// Style, 64 bits: foreground given 1 | foreground 8 | background given 1 | background 8 | add 9 | remove 9 | 28 zeros.
// Whether a colour is given, and the colour, are two fields of the packed form (document 01), so they are read by two functions.
// Each field has its function, as its place and its size differ: a generic one would take both and be no plainer.
#![tactic(auto)]

ghost use Rattle.std.specs.Prelude.{◌≡◌, ◌<◌, ◌^◌};
ghost use Rattle.style.specs.Style.{Style, style_from, style_packed};

// Number of values of a field.
pub const COLOURS: u64 = 1 << 8;

pub const MODIFIERS: u64 = 1 << 9;

// Place value of a field's lowest bit. The zeros are below the remove bits.
const FOREGROUND_GIVEN_PLACE: u64 = 1 << 63;

const FOREGROUND_PLACE: u64 = 1 << 55;

const BACKGROUND_GIVEN_PLACE: u64 = 1 << 54;

const BACKGROUND_PLACE: u64 = 1 << 46;

const ADD_PLACE: u64 = 1 << 37;

pub const REMOVE_PLACE: u64 = 1 << 28;

pub fn foreground_given(style: u64) -> bool
    ensures { result ≡ (style_from style).foreground_given }
{
    style / FOREGROUND_GIVEN_PLACE % 2 == 1
}

pub fn foreground(style: u64) -> u64
    ensures { result ≡ (style_from style).foreground }
{
    style / FOREGROUND_PLACE % COLOURS
}

pub fn background_given(style: u64) -> bool
    ensures { result ≡ (style_from style).background_given }
{
    style / BACKGROUND_GIVEN_PLACE % 2 == 1
}

pub fn background(style: u64) -> u64
    ensures { result ≡ (style_from style).background }
{
    style / BACKGROUND_PLACE % COLOURS
}

pub fn add(style: u64) -> u64
    ensures { result ≡ (style_from style).add }
{
    style / ADD_PLACE % MODIFIERS
}

pub fn remove(style: u64) -> u64
    ensures { result ≡ (style_from style).remove }
{
    style / REMOVE_PLACE % MODIFIERS
}

pub fn zeros(style: u64) -> u64
    ensures { result ≡ (style_from style).zeros }
{
    style % REMOVE_PLACE
}

// Packs these fields into a style, with zeros 0.
pub fn pack(
    foreground_given: bool,
    foreground: u64,
    background_given: bool,
    background: u64,
    add: u64,
    remove: u64,
) -> u64
    requires { (foreground < 2 ^ 8) × (background < 2 ^ 8) × (add < 2 ^ 9) × (remove < 2 ^ 9) }
    ensures { result ≡ style_packed (record {
      foreground_given = foreground_given;
      foreground = foreground;
      background_given = background_given;
      background = background;
      add = add;
      remove = remove;
      zeros = 0;
    }) }
{
    u64::from(foreground_given) * FOREGROUND_GIVEN_PLACE
        + foreground * FOREGROUND_PLACE
        + u64::from(background_given) * BACKGROUND_GIVEN_PLACE
        + background * BACKGROUND_PLACE
        + add * ADD_PLACE
        + remove * REMOVE_PLACE
}
