// Reads an input until a buffer is full, for what the programs read.
#![tactic(auto)]

ghost use Rattle.std.specs.Prelude.{◌<◌, IfOk, OnErr, length, take};
ghost use Rattle.std.specs.Io.{ReadsAtMost};
ghost use Rattle.std.specs.Io.KnownBytes.{Consumes, IsAtEnd};
ghost use Rattle.read_input.specs.LosesExtra.{Loses};

use std::io;
use std::io::Read;

// Reads until the buffer is full or the input ends. Returns how many bytes it put at the start of the buffer: the next bytes of the
// input, and all that it has left if the buffer is not full. An error is the reader's; bytes that were read before it are lost to the
// input, and the buffer may hold them.
pub fn read_full<R: Read>(input: &mut R, buffer: &mut [u8]) -> io::Result<usize>
    ensures bound { ReadsAtMost result buffer.new }
    ensures bytes { IfOk result (λ n. Consumes (R.remaining input.old) (R.remaining input.new) (take n buffer.new)) }
    ensures end { IfOk result (λ n. n < length buffer.new → IsAtEnd (R.remaining input.new)) }
    ensures err { OnErr result (Loses (R.remaining input.old) (R.remaining input.new)) }
{
    let mut done = 0;
    // A turn reads as many bytes as the reader gives, so no `for` counts them.
    while done < buffer.len() {
        let n = input.read(&mut buffer[done..])?;
        if n == 0 {
            break;
        }
        done += n;
    }
    Ok(done)
}
