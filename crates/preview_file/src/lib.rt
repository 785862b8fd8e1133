// Reads the packed form of a notice, all numbers high byte first:
//
//     NTC1 (4 bytes) | columns 2 | rows 2 | area: x 2, y 2, width 2, height 2
//     the block: the fields of `flat::FlatBlock` in their order and sizes, the shadow's offsets as two's complement
//     the text's settings: the fields of `flat::FlatText` in their order and sizes, without `ambiguous`
//     count of styles 2 | count of title records 2 | count of text records 2
//     the styles, 8 bytes each | the title records, 4 bytes each | the text records, 4 bytes each
//
// and nothing after. It has at most 131,072 bytes, 256 styles, 8,192 title records and 24,576 text records: more than the calls
// accept, so that their refusals can be seen.
#![tactic(auto)]

ghost use Rattle.std.specs.Prelude.{◌≡◌, ◌≤◌, Ok, length};
ghost use Rattle.preview_file.specs.FileExtra.{most_styles, most_titles, most_text, unmarked, judged, SizesFit, parsed_of};
ghost use Rattle.preview_file.specs.FileExtra.{styles_held, titles_held, text_held};

use flat::{FlatArea, FlatBlock, FlatText};
use std::fmt;
use store::{store_records, store_styles};

mod fields;
mod numbers;
mod store;

// The fields before the styles.
#[derive(Clone, Copy)]
pub struct Opening {
    pub columns: u16,
    pub rows: u16,
    pub area: FlatArea,
    pub block: FlatBlock,
    pub text: FlatText,
    pub styles: usize,
    pub titles: usize,
    pub records: usize,
}

// Symbols of a block's borders and shadow.
#[derive(Clone, Copy)]
pub struct Symbols {
    pub top_left: u32,
    pub top_right: u32,
    pub bottom_left: u32,
    pub bottom_right: u32,
    pub vertical_left: u32,
    pub vertical_right: u32,
    pub horizontal_top: u32,
    pub horizontal_bottom: u32,
    pub shadow: u32,
}

// Padding of a block.
#[derive(Clone, Copy)]
pub struct Paddings {
    pub left: u16,
    pub right: u16,
    pub top: u16,
    pub bottom: u16,
}

// Why an input is bad: it is too long, doesn't start with the mark, is cut short, has too many styles, title records or
// text records, or has bytes left over.
#[derive(Clone, Copy, Debug, PartialEq, Eq)]
pub enum Flaw {
    Length,
    Mark,
    Short,
    Styles,
    Titles,
    Text,
    Rest,
}

impl fmt::Display for Flaw {
    fn fmt<W: fmt::Write>(&self, f: &mut fmt::Formatter<W>) -> fmt::Result {
        f.write_str(match self {
            Flaw::Length => "over 131,072 bytes",
            Flaw::Mark => "it doesn't start with NTC1",
            Flaw::Short => "cut short",
            Flaw::Styles => "over 256 styles",
            Flaw::Titles => "over 8,192 titles' records",
            Flaw::Text => "over 24,576 records of text",
            Flaw::Rest => "bytes left over",
        })
    }
}

// Whether an input lacks the mark at its start.
#[tactic(auto, unfolding(crate::specs::FileExtra::unmarked))]
fn is_unmarked(input: &[u8]) -> bool
    ensures { result ≡ unmarked input.now }
{
    input.len() < 4 || numbers::number_4(input, 0) != u32::from_be_bytes(*b"NTC1")
}

// Checks the counts of an opening against their maxima and against the input's length in bytes.
#[tactic(auto, unfolding(crate::specs::FileExtra::judged))]
fn judge(bytes: usize, opening: Opening) -> Result<Opening, Flaw>
    ensures { result ≡ judged bytes opening }
{
    if 256 < opening.styles {
        return Err(Flaw::Styles);
    }
    if 8192 < opening.titles {
        return Err(Flaw::Titles);
    }
    if 24576 < opening.records {
        return Err(Flaw::Text);
    }
    let end = 93 + 8 * opening.styles + 4 * opening.titles + 4 * opening.records;
    if bytes < end {
        return Err(Flaw::Short);
    }
    if end < bytes {
        return Err(Flaw::Rest);
    }
    Ok(opening)
}

// Parses the opening of an input and checks the input's length.
#[tactic(auto, unfolding(crate::specs::FileExtra::parsed_of))]
fn parse(input: &[u8]) -> Result<Opening, Flaw>
    ensures { result ≡ parsed_of input.now }
{
    if 131072 < input.len() {
        return Err(Flaw::Length);
    }
    if is_unmarked(input) {
        return Err(Flaw::Mark);
    }
    if input.len() < 93 {
        return Err(Flaw::Short);
    }
    judge(input.len(), fields::opening(input))
}

// Stores an input's styles, title records and text records at the start of the slices for them.
fn store_all(
    input: &[u8],
    opening: Opening,
    styles: &mut [u64],
    titles: &mut [u32],
    text: &mut [u32],
)
    requires sizes_fit { SizesFit (length input.now) opening }
    requires most_styles_in_bounds { (most_styles ≤ length styles.old) × (most_titles ≤ length titles.old) × (most_text ≤ length text.old) }
    ensures styles_after { styles.new ≡ styles_held (Ok opening) input.now styles.old }
    ensures titles_after { titles.new ≡ titles_held (Ok opening) input.now titles.old }
    ensures text_after { text.new ≡ text_held (Ok opening) input.now text.old }
{
    let titles_at = 93 + 8 * opening.styles;
    let text_at = titles_at + 4 * opening.titles;
    store_styles(input, 93, opening.styles, styles);
    store_records(input, titles_at, opening.titles, titles);
    store_records(input, text_at, opening.records, text);
}

// Parses an input and stores its styles and records at the start of the slices for them, which a bad input leaves unchanged.
#[tactic(auto, using(crate::proofs::Storing::reading))]
pub fn read(
    input: &[u8],
    styles: &mut [u64],
    titles: &mut [u32],
    text: &mut [u32],
) -> Result<Opening, Flaw>
    requires { (most_styles ≤ length styles.old) × (most_titles ≤ length titles.old) × (most_text ≤ length text.old) }
    ensures value { result ≡ parsed_of input.now }
    ensures styles_after { styles.new ≡ styles_held result input.now styles.old }
    ensures titles_after { titles.new ≡ titles_held result input.now titles.old }
    ensures text_after { text.new ≡ text_held result input.now text.old }
{
    let opening = parse(input)?;
    store_all(input, opening, styles, titles, text);
    Ok(opening)
}
