// Calls `draw_block` with every subset of its five refusal causes; `draw_frame` and `draw_text` with every subset of theirs, five each,
// then with each single way to trigger a cause and with each maximum that is still accepted; and `pages` with every subset of the seven
// of a whole notice. Prints for each what differs from an accepted call, the number returned, and whether the cells are unchanged.
//
// Then draws notices page by page, reads the pages back, and compares them with the text's solid glyphs, in order; the counts of
// rows and glyphs are compared with those of `tally`.
//
// The inputs are in data/, written by oracle/trials. Last come the cases of `listlines` and `preview`.
#![tactic(auto)]

mod calling;
mod calls;
mod listed;
mod outcome;
mod page_reading;
mod previewed;
mod reading;
mod report;

use std::fs::File;
use std::io;
use std::io::Read;
use std::rt::Files;

// Runs `count` calls of a file and prints how many differ.
fn run_calls(rt: &impl Print, file: &mut impl Read, count: u32) -> io::Result<()> {
    let mut differ = 0u32;
    for _call in 0..count {
        differ += u32::from(calling::differs(rt, file)?);
    }
    println!(rt; "{count} calls, {differ} differ")
}

// Runs `count` calls of the file with a name. One that can't be opened is read as an empty one.
fn call_each(rt: &(impl Files + Print), name: &str, count: u32) -> io::Result<()> {
    match File::open(rt, name) {
        Ok(mut file) => run_calls(rt, &mut file, count),
        Err(_) => run_calls(rt, &mut io::empty(), count),
    }
}

fn main(rt: HostRuntime) -> io::Result<()> {
    call_each(&rt, "blocks", 32)?;
    call_each(&rt, "frames", 70)?;
    call_each(&rt, "texts", 58)?;
    call_each(&rt, "sets", 128)?;
    call_each(&rt, "pages", 768)?;
    listed::list_all(&rt)?;
    previewed::preview_all(&rt)
}
