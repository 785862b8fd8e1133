// Draws and prints document 01's two examples of titles.
ghost use Rattle.std.specs.Prelude.{◌≤◌};

use layout::Rect;
use std::io;
use test_blocks::plain;
use text::{AmbiguousWidth, glyph, head};

// Returns the head of a centred title for a bar, else a glyph of width 1.
fn record(byte: u8) -> u32 {
    match byte {
        b'|' => head::pack(1, 0),
        _ => glyph::pack(u32::from(byte), 1, false, 0),
    }
}

// Draws titles over the whole of a row and prints it.
fn print_row<const COLUMNS: usize>(rt: &impl Print, text: &[u8; 9]) -> io::Result<()>
    requires { COLUMNS ≤ 512 }
{
    let titles = text.map(|byte| record(byte));
    let mut cells = [cell::blank(); COLUMNS];
    let area = Rect {
        x: 0,
        y: 0,
        width: COLUMNS as u16,
        height: 1,
    };
    // A refusal would leave the row blank.
    let _ = draw_block::draw_block(
        COLUMNS as u32,
        1,
        &mut cells,
        &[0],
        &titles,
        AmbiguousWidth::Narrow,
        area,
        plain::plain(),
    );
    test_print::print_row(rt, &cells)
}

pub fn print_both(rt: &impl Print) -> io::Result<()> {
    rt.print("centred titles abcd, efg in 5: ")?;
    print_row::<5>(rt, b"|abcd|efg")?;
    rt.print("centred titles a, bcdefg in 4: ")?;
    print_row::<4>(rt, b"|a|bcdefg")
}
