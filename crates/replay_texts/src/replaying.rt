// Answers the cases in order and compares with the oracle's checksums: one file for each question.
use std::fmt::Display;
use std::io;
use std::io::Read;
use std::rt::Files;
use test_answers::{measures, texts};
use test_sums::replay::{replay_file, replay_part};
use test_texts::Case;
use test_texts::parts::Part;

// Replays a question on a part.
fn replay_text_part<A: Fn(Case, &[u32], &mut [u64]) -> Option<u32>>(
    rt: &impl Print,
    file: &mut impl Read,
    heading: &impl Display,
    part: Part,
    answer: &A,
) -> io::Result<()>
    requires { A.IsAlwaysCallable answer.now }
{
    let mut text = [0u32; 16384];
    let mut list = [0u64; 32768];
    replay_part(
        rt,
        file,
        heading,
        part.count(),
        |number|
            requires { A.IsAlwaysCallable answer.now }
        {
            let case = part.write_case(number, &mut text);
            (answer(case, &text[..case.length], &mut list), case)
        },
    )
}

// Replays a question on all parts. The list that an answer may write has room for the lines of every text.
fn replay_parts<A: Fn(Case, &[u32], &mut [u64]) -> Option<u32>>(
    rt: &impl Print,
    file: &mut impl Read,
    question: &str,
    answer: &A,
) -> io::Result<()>
    requires { A.IsAlwaysCallable answer.now }
{
    for part in Part::ALL {
        let heading = format_args!("{question}, {part}");
        replay_text_part(rt, file, &heading, part, answer)?;
    }
    Ok(())
}

pub fn replay(rt: &(impl Files + Print)) -> io::Result<()> {
    replay_file(
        rt,
        "wrapped",
        |file| replay_parts(rt, file, "wrapped", &texts::wrapped),
    )?;
    let tally = |case: Case, text: &[u32], _: &mut [u64]| texts::counts(case, text);
    replay_file(rt, "tally", |file| replay_parts(rt, file, "tally", &tally))?;
    let truncated = |case: Case, text: &[u32], _: &mut [u64]| texts::truncated(case, text);
    replay_file(
        rt,
        "truncated",
        |file| replay_parts(rt, file, "truncated", &truncated),
    )?;
    let measures = |case: Case, text: &[u32], _: &mut [u64]| measures::measures(case, text);
    replay_file(
        rt,
        "measures",
        |file| replay_parts(rt, file, "measures", &measures),
    )
}
