// Prints the output of `preview`: the rows of a screen, and messages.
#![tactic(auto)]

use arrayvec::ArrayVec;
use notice::{DrawCounts, TallyCounts};
use preview_file::Flaw;
use refuse::Refusal;
use std::{fmt, io};

// Why a notice isn't shown: a cause of the calls' table, or a setting whose number names no case.
#[derive(Clone, Copy)]
pub enum Cause {
    Listed(Refusal),
    Setting,
}

impl From<Refusal> for Cause {
    fn from(why: Refusal) -> Cause {
        Cause::Listed(why)
    }
}

// The number printed: 255 is none of the table's.
impl From<Cause> for u32 {
    fn from(cause: Cause) -> u32 {
        match cause {
            Cause::Listed(why) => u32::from(why),
            Cause::Setting => 255,
        }
    }
}

// The cause with a number: any number has one, 0 that of 5, and one above 9 that of a setting.
impl From<u32> for Cause {
    fn from(number: u32) -> Cause {
        match number {
            1 => Cause::Listed(Refusal::Screen),
            2 => Cause::Listed(Refusal::Styles),
            3 => Cause::Listed(Refusal::TextLength),
            4 => Cause::Listed(Refusal::TextHeads),
            0 | 5 => Cause::Listed(Refusal::Titles),
            6 => Cause::Listed(Refusal::StyleNumber),
            7 => Cause::Listed(Refusal::Symbol),
            8 => Cause::Listed(Refusal::Limit),
            9 => Cause::Listed(Refusal::ListLength),
            _ => Cause::Setting,
        }
    }
}

// The cause in words.
impl fmt::Display for Cause {
    fn fmt<W: fmt::Write>(&self, f: &mut fmt::Formatter<W>) -> fmt::Result {
        let Cause::Listed(why) = *self else {
            return f.write_str("a setting whose number names no case");
        };
        f.write_str(match why {
            Refusal::Screen => "columns not 1 to 512, or rows not 1 to 256",
            Refusal::Styles => "over 64 styles, or a style's zeros not 0",
            Refusal::TextLength => "a text over 16,384 records",
            Refusal::TextHeads => {
                "a text that doesn't open with a head, or a head in it whose zeros or position aren't 0"
            }
            Refusal::Titles => {
                "titles: over 16, over 256 glyphs in one, not opening with a head, or a head of position 3 or whose zeros aren't 0"
            }
            Refusal::StyleNumber => "a style number that isn't below the count of styles",
            Refusal::Symbol => "a border or shadow symbol of 2,097,152 or more",
            Refusal::Limit => "a limit over 4,096",
            Refusal::ListLength => "a list shorter than the lines to write",
        })
    }
}

pub fn usage(rt: &impl Print) -> io::Result<()> {
    println!(rt; "usage: preview [FILE] [wide] [ansi] [page N]")
}

pub fn not_opened(rt: &impl Print) -> io::Result<()> {
    println!(rt; "bad input: the file can't be opened")
}

// Prints why an input is bad.
pub fn bad_input(rt: &impl Print, flaw: Flaw) -> io::Result<()> {
    println!(rt; "bad input: {flaw}")
}

// Prints a refusal's number and its cause in words.
pub fn refused(rt: &impl Print, number: u32) -> io::Result<()> {
    let cause = Cause::from(number);
    println!(rt; "refused {number}: {cause}")
}

pub fn past_the_last(rt: &impl Print, pages: u64) -> io::Result<()> {
    println!(rt; "no such page: there are {pages}, counted from 0")
}

pub fn page(rt: &impl Print, number: u64, pages: u64) -> io::Result<()> {
    println!(rt; "page {number} of {pages}")
}

// Prints the counts of a drawn page.
pub fn counts(rt: &impl Print, counts: DrawCounts) -> io::Result<()> {
    let DrawCounts {
        rows,
        placed,
        clipped,
    } = counts;
    println!(rt; "rows {rows}, placed {placed}, clipped {clipped}")
}

// Prints the tally of a text.
pub fn tally(rt: &impl Print, counts: TallyCounts) -> io::Result<()> {
    let TallyCounts {
        lines,
        placed,
        clipped,
        zero_width,
        over_wide,
        dropped,
    } = counts;
    print!(rt; "tally: lines {lines}, placed {placed}, clipped {clipped}, ")?;
    println!(rt; "zero-width {zero_width}, over-wide {over_wide}, dropped {dropped}")
}

// Prints all rows of a screen, if it has 1 to 512 columns, as drawing accepts.
pub fn rows(rt: &impl Print, cells: &[u64], columns: usize, ansi: bool) -> io::Result<()> {
    if columns == 0 || 512 < columns {
        return Ok(());
    }
    let mut line = ArrayVec::<u8, 24576>::new();
    for row in cells.chunks_exact(columns) {
        line.clear();
        preview_row::push_row(&mut line, ansi, row);
        rt.write_all(line.as_slice())?;
    }
    Ok(())
}
