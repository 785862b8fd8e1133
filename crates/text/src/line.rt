// The lines that heads open, as slices of the records.
ghost use Rattle.std.specs.Prelude.{◌≡◌, count_by, eqb, length, position};
ghost use Rattle.std.specs.Iterator.{YieldsFirstBy, item_count};
ghost use Rattle.text.specs.LinesExtra.{cut_lines, head_and_records, lines_left};
ghost use Rattle.text.specs.Record.{is_head};
ghost use Rattle.text.specs.Line.{until_head, lines_from};

use crate::head;

// The lines of records that open with a head, each as its head and the records up to the next one.
#[derive(Clone, Copy)]
pub struct Lines<'a> {
    rest: &'a [u32],
}

impl<'a> Lines<'a> {
    pub fn new(records: &'a [u32]) -> Lines<'a>
        ensures { lines_left result ≡ cut_lines records.now }
    {
        Lines { rest: records }
    }

    // Whether no line is left.
    #[tactic(auto, using(crate::proofs::CutLines::none_left))]
    pub fn is_empty(&self) -> bool
        ensures { result ≡ eqb (length (lines_left self.now)) 0 }
    {
        self.rest.is_empty()
    }
}

impl<'a> Iterator for Lines<'a> {
    type Item = (u32, &'a [u32]);

    ghost next_gives = { YieldsFirstBy head_and_records lines_left };

    ghost remaining = { item_count lines_left };

    fn next(&mut self) -> Option<(u32, &'a [u32])> {
        let (head, after) = self.rest.split_first()?;
        let (records, rest) = after.split_at(line_length(after));
        self.rest = rest;
        Some((*head, records))
    }
}

// Returns the place of the next head, if any.
fn next_head(after: &[u32]) -> Option<usize>
    ensures { result ≡ position is_head after.now }
{
    after.iter().position(|record| head::is_head(*record))
}

// Counts the records before the next head: those of the line whose head is just before `after`.
#[tactic(auto, using(crate::proofs::TextLines::line_measured))]
pub fn line_length(after: &[u32]) -> usize
    ensures { result ≡ length (until_head after.now) }
{
    next_head(after).unwrap_or(after.len())
}

// Counts the heads. The chain `filter(..).count()` was measured: it takes twice as long, as the compiler doesn't take several records
// at a time.
fn count_heads(records: &[u32]) -> usize
    ensures { result ≡ count_by is_head records.now }
{
    let mut count = 0;
    for record in records {
        if head::is_head(*record) {
            count += 1;
        }
    }
    count
}

// Counts the heads, each of which opens a line.
#[tactic(auto, using(crate::proofs::Counting::heads_counted))]
pub fn count_text_lines(records: &[u32]) -> usize
    ensures { result ≡ length (lines_from 0 records.now) }
{
    count_heads(records)
}
