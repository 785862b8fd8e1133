// The program `listlines`: reads a limit, a trim byte and records, and prints the composed lines or the number of the refusal.
#![tactic(auto)]

ghost use Rattle.std.specs.Prelude.{◌≡◌, ◌+◌, ◌*◌, ◌^◌, ◌<◌, ◌≤◌, ◌++◌, OnOk, IfSome, length};
ghost use Rattle.std.specs.Io.KnownBytes.{Appends};
ghost use Rattle.arrayvec.specs.ArrayVec.{array_vec_len};
ghost use Rattle.listlines_input.specs.Input.{most_records};
ghost use Rattle.listlines_run.specs.Program.{answer_of, list_of};
ghost use Rattle.listlines_run.specs.Printed.{printed_of};

use arrayvec::ArrayVec;
use listlines_input::{Flaw, Input};
use std::io;
use std::io::{Read, Write};
use text::{Alignment, AmbiguousWidth};

mod read;

// Returns the count of the lines of an input, which are then in `list`; the notice is aligned left.
fn answer_to(input: &[u8], text: &mut [u32], list: &mut [u64]) -> Result<usize, Flaw>
    requires { (most_records ≤ length text.old) × (length list.old ≡ most_records) }
    ensures { let lent = list.old in
        (result ≡ answer_of input.now lent) × (list.new ≡ list_of input.now lent) }
{
    let Input {
        limit,
        trim,
        records,
    } = listlines_input::parse(input, text)?;
    let count = list_lines::list_lines(
        &text[..records],
        AmbiguousWidth::Narrow,
        Alignment::Left,
        limit,
        trim,
        list,
    )?;
    Ok(count)
}

// Appends the output for an input: at most 30 bytes for each line, and 12 for their count.
fn output_for<const N: usize>(
    input: &[u8],
    text: &mut [u32],
    list: &mut [u64],
    output: &mut ArrayVec<u8, N>,
)
    requires most_records_in_bounds { (most_records ≤ length text.old) × (length list.old ≡ most_records) }
    requires room { array_vec_len output.old + (30 * most_records + 12) ≤ N }
    ensures { output.new.items ≡ output.old.items ++ printed_of input.now }
{
    match answer_to(input, text, list) {
        Ok(count) => listlines_output::push_lines(output, &list[..count]),
        Err(flaw) => listlines_output::push_refused(output, u32::from(flaw)),
    }
}

// Runs the program: reads an input to its end, and writes the output. Where the bytes that a reader has left and those that a writer
// holds are known, the output of all of them is written. An error is the reader's or the writer's: before the first nothing is written,
// before the second perhaps a part.
pub fn run<R: Read, W: Write>(input: &mut R, output: &mut W) -> io::Result<()>
    ensures { OnOk result (IfSome (R.remaining input.old) (λ bytes.
        length bytes < 2 ^ 64 → Appends (W.contents output.old) (W.contents output.new) (printed_of bytes))) }
{
    let mut buffer = [0u8; 16394];
    let length = read::read_all(input, &mut buffer)?;
    let mut text = [0u32; 4096];
    let mut list = [0u64; 4096];
    let mut printed = ArrayVec::<u8, 122892>::new();
    output_for(&buffer[..length], &mut text, &mut list, &mut printed);
    output.write_all(printed.as_slice())
}
