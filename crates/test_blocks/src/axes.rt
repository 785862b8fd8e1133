// Block settings along one axis, horizontal or vertical.

// Borders and padding at both ends of an area, and its start and size.
#[derive(Clone, Copy)]
pub struct Axis {
    pub before: bool,
    pub after: bool,
    pub place: u16,
    pub size: u16,
    pub padding: u16,
    pub padding_after: u16,
}

// Returns a number at either end of the 16-bit range.
fn end(number: u32) -> u16 {
    match number {
        0 => 0,
        1 => 1,
        2 => 2,
        3 => 3,
        4 => 65533,
        5 => 65534,
        _ => 65535,
    }
}

// Returns a padding. The sum of two large ones overflows 16 bits.
fn padding(number: u32) -> u16 {
    match number {
        0 => 0,
        1 => 1,
        2 => 2,
        3 => 40000,
        _ => 65535,
    }
}

// Returns the axis with a number. The first 4,900 are all different.
pub fn axis_of(number: u32) -> Axis {
    Axis {
        before: number % 2 == 1,
        after: number / 2 % 2 == 1,
        place: end(number / 4 % 7),
        size: end(number / 28 % 7),
        padding: padding(number / 196 % 5),
        padding_after: padding(number / 980 % 5),
    }
}
