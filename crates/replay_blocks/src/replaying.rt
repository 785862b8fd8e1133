// Answers the cases in order and compares with the oracle's checksums.
use std::io;
use std::io::Read;
use std::rt::Files;
use test_answers::blocks;
use test_blocks::parts::Part;
use test_sums::replay::{replay_file, replay_part};

fn replay_inner(rt: &impl Print, file: &mut impl Read) -> io::Result<()> {
    replay_part(rt, file, &Part::Inner, Part::Inner.count(), |number| {
        let case = Part::Inner.case(number);
        (blocks::inner(case), case)
    })
}

fn replay_drawn(
    rt: &impl Print,
    file: &mut impl Read,
    part: Part,
    cells: &mut [u64],
) -> io::Result<()> {
    replay_part(rt, file, &part, part.count(), |number| {
        let case = part.case(number);
        (blocks::drawn(case, cells), case)
    })
}

// Replays all parts on the cells of the largest screen.
pub fn replay(rt: &(impl Files + Print)) -> io::Result<()> {
    let mut cells = [0u64; 131072];
    replay_file(rt, "inner", |file| replay_inner(rt, file))?;
    replay_file(rt, "blocks", |file| {
        replay_drawn(rt, file, Part::Small, &mut cells)?;
        replay_drawn(rt, file, Part::Large, &mut cells)
    })?;
    replay_file(rt, "titled", |file| {
        replay_drawn(rt, file, Part::Titled, &mut cells)?;
        replay_drawn(rt, file, Part::Wide, &mut cells)?;
        replay_drawn(rt, file, Part::Right, &mut cells)
    })
}
