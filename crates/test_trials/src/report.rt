// Output of the program.
use crate::outcome::Outcome;
use read_input::read_full;
use std::io;
use std::io::Read;

// Prints what differs from an accepted call: the next 32 bytes of a file.
pub fn print_name(rt: &impl Print, file: &mut impl Read) -> io::Result<()> {
    let mut name = [0u8; 32];
    read_full(file, &mut name)?;
    rt.write_all(&name)
}

// Prints the number of a call's outcome and whether the cells are unchanged.
pub fn print_answer(rt: &impl Print, outcome: Outcome, kept: bool) -> io::Result<()> {
    let cells = if kept { "kept" } else { "changed" };
    println!(rt; "answers {outcome}, cells {cells}")
}
