// Replays of test cases: our answers beside the oracle's checksums.
use crate::stored::next_sum;
use std::fmt::Display;
use std::fs::File;
use std::io;
use std::io::Read;
use std::rt::Files;

// Asks for the checksum of our answer to each of `count` cases, None if the call is refused, reads the oracle's from a file, and
// prints the first ten cases that differ, then the totals.
pub fn replay_part<C: Display + Drop, A: FnMut(u32) -> (Option<u32>, C)>(
    rt: &impl Print,
    file: &mut impl Read,
    part: &impl Display,
    count: u32,
    mut answer: A,
) -> io::Result<()>
    requires { A.IsAlwaysCallable answer }
{
    let mut differ = 0u32;
    for number in 0..count {
        let sum = next_sum(file)?;
        let (ours, case) = answer(number);
        if ours != Some(sum) {
            if differ < 10 {
                println!(rt; "{part}: case {number} differs, {case}")?;
            }
            differ += 1;
        }
    }
    println!(rt; "{part}: {count} cases compared, {differ} differ")
}

// Opens the file of checksums with a name and replays its parts.
pub fn replay_file<R: Files + Print, P: FnOnce(&mut R::File) -> io::Result<()>>(
    rt: &R,
    name: &str,
    replay_parts: P,
) -> io::Result<()>
    requires { P.IsAlwaysCallable replay_parts }
{
    match File::open(rt, name) {
        Ok(mut file) => replay_parts(&mut file),
        Err(_) => println!(rt; "data/{name} can't be opened"),
    }
}
