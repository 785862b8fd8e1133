// Runs one call on its input and compares the answer.
use crate::calls::{Call, Given, Kind, next_call, run};
use crate::outcome::Outcome;
use crate::report;
use read_input::read_full;
use std::io;
use std::io::Read;
use test_blocks::words::write_words;

// Returns the call's outcome on a packed notice. Records that the notice doesn't set are the
// glyph A. A call on a shorter slice than intended has another outcome.
fn answer(rt: &impl Print, call: Call, input: &[u8], cells: &mut [u64]) -> io::Result<Outcome> {
    let mut styles = [0u64; 256];
    let mut titles = [0u32; 8192];
    let mut text = [66689u32; 24576];
    let Ok(opening) = preview_file::read(input, &mut styles, &mut titles, &mut text) else {
        return Ok(Outcome::Unparsed);
    };
    let given = Given {
        opening,
        styles: &styles[..opening.styles.min(256)],
        titles: &titles[..opening.titles.min(8192)],
        text: &text[..call.records.min(24576)],
    };
    let count = call.cells.min(cells.len());
    run(rt, call.kind, given, &mut cells[..count])
}

// Returns the call's outcome on the next `call.bytes` bytes of a file.
fn answer_to_next(
    rt: &impl Print,
    file: &mut impl Read,
    call: Call,
    cells: &mut [u64],
) -> io::Result<Outcome> {
    let mut input = [0u8; 2048];
    let n = call.bytes.min(2048);
    read_full(file, &mut input[..n])?;
    answer(rt, call, &input[..n], cells)
}

// Whether cells are kept: by a refused call, and by one that draws nothing.
fn must_keep(call: Call, found: Outcome) -> bool {
    call.kind == Kind::PageCount || found != Outcome::Accepted
}

// Whether the next call of a file is wrong: its outcome has another number than expected, changes a cell though it must keep all, or draws
// but changes none. There are enough cells for the largest screen.
pub fn differs(rt: &impl Print, file: &mut impl Read) -> io::Result<bool> {
    let mut cells = [0u64; 1539];
    write_words(&mut cells, 1, 1);
    let before = cells;
    let call = next_call(file)?;
    report::print_name(rt, file)?;
    let found = answer_to_next(rt, file, call, &mut cells)?;
    let kept = cells == before;
    report::print_answer(rt, found, kept)?;
    Ok(u32::from(found) != call.answer || kept != must_keep(call, found))
}
