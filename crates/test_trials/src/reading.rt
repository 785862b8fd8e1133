// Reads the symbols of drawn cells and compares them with a text.
use layout::Rect;
use text::{glyph, head};

// Whether a record is a solid glyph.
pub fn is_solid(record: u32) -> bool {
    !head::is_head(record) && !glyph::is_whitespace(record)
}

// Returns the records after the next solid glyph, or None if there is none or its symbol differs.
fn after_glyph(unread: &[u32], symbol: u64) -> Option<&[u32]> {
    let next = unread.iter().position(|record| is_solid(*record))?;
    if u64::from(glyph::symbol(unread[next])) != symbol {
        return None;
    }
    Some(&unread[next + 1..])
}

// Whether the cell at index `place` of a 40 × 20 screen is in an area.
fn is_inside(area: Rect, place: usize) -> bool {
    place < 800 && area.contains((place % 40) as u16, (place / 40) as u16)
}

// Returns the records after the glyph that a cell shows, or all if it shows none in the area.
fn after_cell(unread: &[u32], area: Rect, place: usize, cell: u64) -> Option<&[u32]> {
    let symbol = cell::symbol(cell);
    if symbol != 32 && is_inside(area, place) {
        return after_glyph(unread, symbol);
    }
    Some(unread)
}

// Returns the records after the last glyph in an area, read row by row from the top, each from left to right, or None if the glyphs
// aren't those of the text.
pub fn after_area<'a>(text: &'a [u32], area: Rect, cells: &[u64]) -> Option<&'a [u32]> {
    let mut unread = text;
    for (place, cell) in cells.iter().enumerate() {
        unread = after_cell(unread, area, place, *cell)?;
    }
    Some(unread)
}
