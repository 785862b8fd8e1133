// Output of the test programs: rows of cells as text, one byte for each cell.
#![tactic(auto)]

use std::io;

// Returns the byte of a cell's symbol, `_` for a blank.
fn byte_of(cell: u64) -> u8 {
    let symbol = cell::symbol(cell);
    if symbol == u64::from(b' ') {
        return b'_';
    }
    (symbol % 256) as u8
}

// Prints a row of cells and a newline.
pub fn print_row(rt: &impl Print, cells: &[u64]) -> io::Result<()> {
    for cell in cells {
        rt.write_all(&[byte_of(*cell)])?;
    }
    println!(rt)
}
