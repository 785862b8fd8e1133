// Reads an input to its end and keeps its start.
ghost use Rattle.std.specs.Prelude.{◌+◌, ◌%◌, ◌^◌, ◌<◌, ◌≤◌, IfOk, OnErr, IfSome, length};
ghost use Rattle.std.specs.Io.{ReadsAtMost};
ghost use Rattle.std.specs.Io.KnownBytes.{Keeps};
ghost use Rattle.read_input.specs.LosesExtra.{Loses};
ghost use Rattle.listlines_run.specs.CutExtra.{Cut, Kept};
ghost use Rattle.listlines_run.specs.SkippedExtra.{Skipped, LeftOver};

use read_input::read_full;
use std::io;
use std::io::Read;

// Reads once and discards the bytes. Returns their count: 0 at the end of the input.
fn skip_some<R: Read>(input: &mut R) -> io::Result<usize>
    ensures skipped { IfOk result (Skipped (R.remaining input.old) (R.remaining input.new)) }
    ensures err { OnErr result (Keeps (R.remaining input.old) (R.remaining input.new)) }
{
    let mut chunk = [0u8; 4096];
    input.read(&mut chunk)
}

// Reads the input to its end and returns the count of bytes read, modulo 4. The turns are bounded, so that the loop terminates.
fn skip_rest<R: Read>(input: &mut R) -> io::Result<usize>
    ensures bound { IfOk result (λ over. over < 4) }
    ensures count { IfOk result (LeftOver (R.remaining input.old)) }
    ensures err { OnErr result (Loses (R.remaining input.old) (R.remaining input.new)) }
{
    let mut over = 0;
    for _ in 0..u64::MAX {
        let n = skip_some(input)?;
        if n == 0 {
            break;
        }
        over = (over + n % 4) % 4;
    }
    Ok(over)
}

// Returns where to cut the full buffer of an input that has `over` more bytes, modulo 4: as many bytes follow the last whole
// record as in the whole input.
fn cut(full: usize, over: usize) -> usize
    requires le_full { 3 ≤ full }
    requires over_bound { over < 4 }
    ensures { Cut full over result }
{
    full - (4 - over) % 4
}

// Reads an input to its end. Returns how many bytes of the buffer to parse: all that were read or, if the input is longer, as
// many as give the same result (theorem `cut-same`). An error is the reader's; the buffer may then hold what was read before it.
pub fn read_all<R: Read>(input: &mut R, buffer: &mut [u8]) -> io::Result<usize>
    requires { 3 ≤ length buffer.old }
    ensures bound { ReadsAtMost result buffer.new }
    ensures kept { IfOk result (λ at. IfSome (R.remaining input.old) (λ bytes.
        length bytes < 2 ^ 64 → Kept (length buffer.new) bytes at buffer.new)) }
    ensures err { OnErr result (Loses (R.remaining input.old) (R.remaining input.new)) }
{
    let read = read_full(input, buffer)?;
    if read < buffer.len() {
        return Ok(read);
    }
    let over = skip_rest(input)?;
    Ok(cut(read, over))
}
