// Answers the cases in order and compares with the oracle's checksums.
use crate::kinds::Kinds;
use std::fmt::Display;
use std::io;
use std::io::Read;
use std::rt::Files;
use test_answers::notices;
use test_answers::notices::Drawing;
use test_notices::Case;
use test_notices::parts::Part;
use test_sums::replay::{replay_file, replay_part};

// Replays a part and returns the kinds of its answers.
fn replay_notice_part<A: Fn(Case, &mut [u64]) -> Option<Drawing>>(
    rt: &impl Print,
    file: &mut impl Read,
    heading: &impl Display,
    part: Part,
    answer: &A,
) -> io::Result<Kinds>
    requires { A.IsAlwaysCallable answer.now }
{
    // the cells of the largest screen
    let mut cells = [0u64; 3600];
    let mut kinds = Kinds::new();
    replay_part(
        rt,
        file,
        heading,
        part.count(),
        |number|
            requires { A.IsAlwaysCallable answer.now }
        {
            let case = part.case(number);
            let drawing = answer(case, &mut cells);
            if let Some(drawing) = drawing {
                kinds.count(drawing);
            }
            (drawing.map(|drawing| drawing.sum), case)
        },
    )?;
    Ok(kinds)
}

// Replays all parts. A frame alone places and clips nothing, so its kinds aren't printed.
fn replay_parts<A: Fn(Case, &mut [u64]) -> Option<Drawing>>(
    rt: &impl Print,
    file: &mut impl Read,
    name: &str,
    prints_kinds: bool,
    answer: &A,
) -> io::Result<()>
    requires { A.IsAlwaysCallable answer.now }
{
    for part in Part::ALL {
        let heading = format_args!("{name}, {part}");
        let kinds = replay_notice_part(rt, file, &heading, part, answer)?;
        if prints_kinds {
            println!(rt; "{heading}: {kinds}")?;
        }
    }
    Ok(())
}

pub fn replay(rt: &(impl Files + Print)) -> io::Result<()> {
    replay_file(
        rt,
        "notices",
        |file| replay_parts(rt, file, "notices", true, &notices::both),
    )?;
    replay_file(
        rt,
        "frames",
        |file| replay_parts(rt, file, "frames", false, &notices::frame),
    )?;
    replay_file(
        rt,
        "texts",
        |file| replay_parts(rt, file, "texts", true, &notices::text),
    )
}
