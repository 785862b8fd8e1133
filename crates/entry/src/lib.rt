// Entry of a composed line, 64 bits: first 15 | end 15 | width 16 | alignment 2 | mark 1 | 15 zeros.
// Each field has its function, as its place and its size differ: a generic one would take both and be no plainer.
#![tactic(auto)]

ghost use Rattle.std.specs.Prelude.{◌≡◌, ◌<◌, ◌^◌};
ghost use Rattle.entry.specs.Entry.{entry_first, entry_end, entry_width, entry_alignment, entry_mark, entry_marked};

use line_composer::WrappedLine;

// Number of values of a field.
const RECORDS: u64 = 1 << 15;

const WIDTHS: u64 = 1 << 16;

const ALIGNMENTS: u64 = 1 << 2;

const MARKS: u64 = 1 << 1;

// Place value of a field's lowest bit. The zeros are below the mark.
const FIRST_PLACE: u64 = 1 << 49;

const END_PLACE: u64 = 1 << 34;

const WIDTH_PLACE: u64 = 1 << 18;

const ALIGNMENT_PLACE: u64 = 1 << 16;

const MARK_PLACE: u64 = 1 << 15;

pub fn first(entry: u64) -> u64
    ensures { result ≡ entry_first entry }
{
    entry / FIRST_PLACE
}

pub fn end(entry: u64) -> u64
    ensures { result ≡ entry_end entry }
{
    entry / END_PLACE % RECORDS
}

pub fn width(entry: u64) -> u64
    ensures { result ≡ entry_width entry }
{
    entry / WIDTH_PLACE % WIDTHS
}

pub fn alignment(entry: u64) -> u64
    ensures { result ≡ entry_alignment entry }
{
    entry / ALIGNMENT_PLACE % ALIGNMENTS
}

pub fn mark(entry: u64) -> u64
    ensures { result ≡ entry_mark entry }
{
    entry / MARK_PLACE % MARKS
}

// Packs a composed line and its mark into an entry.
#[tactic(auto, unfolding(crate::specs::Entry::entry_packed, crate::specs::Entry::entry_marked))]
pub fn pack(line: WrappedLine, mark: bool) -> u64
    requires { (line.first < 2 ^ 15) × (line.end < 2 ^ 15) × (line.width < 2 ^ 16) }
    ensures { result ≡ entry_marked line mark }
{
    let alignment = u32::from(line.alignment);
    line.first as u64 * FIRST_PLACE
        + line.end as u64 * END_PLACE
        + line.width as u64 * WIDTH_PLACE
        + u64::from(alignment) * ALIGNMENT_PLACE
        + u64::from(mark) * MARK_PLACE
}
