// The calls under test.
use crate::outcome::{Outcome, outcome_of};
use crate::page_reading::read_back;
use block::Block;
use layout::Rect;
use preview_file::Opening;
use read_input::read_full;
use refuse::Refusal;
use render_lines::DrawCounts;
use render_text::TextSettings;
use std::io;
use std::io::Read;

// What a call does: draws a block, a frame, all pages of a notice or a text, or counts the pages of a notice and draws nothing.
#[derive(Clone, Copy, PartialEq, Eq)]
pub enum Kind {
    Block,
    Frame,
    Pages,
    Text,
    PageCount,
}

impl From<u8> for Kind {
    fn from(number: u8) -> Kind {
        match number {
            1 => Kind::Frame,
            2 => Kind::Pages,
            3 => Kind::Text,
            4 => Kind::PageCount,
            _ => Kind::Block,
        }
    }
}

// A call: its kind, the expected number, the numbers of cells and text records to pass, and the length of the packed notice in bytes.
#[derive(Clone, Copy)]
pub struct Call {
    pub kind: Kind,
    pub answer: u32,
    pub cells: usize,
    pub records: usize,
    pub bytes: usize,
}

// What a call is given besides the cells.
#[derive(Clone, Copy)]
pub struct Given<'a> {
    pub opening: Opening,
    pub styles: &'a [u64],
    pub titles: &'a [u32],
    pub text: &'a [u32],
}

// Returns a two-byte number, high byte first.
fn number(high: u8, low: u8) -> usize {
    usize::from(u16::from_be_bytes([high, low]))
}

// Reads the next call of a file.
pub fn next_call(file: &mut impl Read) -> io::Result<Call> {
    let mut bytes = [0u8; 8];
    read_full(file, &mut bytes)?;
    Ok(Call {
        kind: Kind::from(bytes[0]),
        answer: u32::from(bytes[1]),
        cells: number(bytes[2], bytes[3]),
        records: number(bytes[4], bytes[5]),
        bytes: number(bytes[6], bytes[7]),
    })
}

// Draws a block.
fn draw_block(given: Given, cells: &mut [u64]) -> Result<(), Refusal> {
    let opening = given.opening;
    draw_block::draw_block(
        u32::from(opening.columns),
        u32::from(opening.rows),
        cells,
        given.styles,
        given.titles,
        flat::ambiguous_named(opening.text.ambiguous),
        Rect::from(opening.area),
        Block::from(opening.block),
    )
}

// Draws a frame.
fn draw_frame(given: Given, cells: &mut [u64]) -> Result<Rect, Refusal> {
    let opening = given.opening;
    draw_frame::draw_frame(
        u32::from(opening.columns),
        u32::from(opening.rows),
        cells,
        given.styles,
        given.titles,
        flat::ambiguous_named(opening.text.ambiguous),
        Rect::from(opening.area),
        opening.text.style,
        Block::from(opening.block),
    )
}

// Draws a text into the opening's area.
fn draw_text(given: Given, cells: &mut [u64]) -> Result<DrawCounts, Refusal> {
    let opening = given.opening;
    let flat_text = opening.text;
    draw_text::draw_text(
        u32::from(opening.columns),
        u32::from(opening.rows),
        cells,
        given.styles,
        given.text,
        Rect::from(opening.area),
        TextSettings::from(flat_text),
    )
}

// Runs a call of a kind and returns its outcome.
pub fn run(rt: &impl Print, kind: Kind, given: Given, cells: &mut [u64]) -> io::Result<Outcome> {
    match kind {
        Kind::Block => Ok(outcome_of(draw_block(given, cells))),
        Kind::Frame => Ok(outcome_of(draw_frame(given, cells))),
        Kind::Pages => read_back(rt, given, cells),
        Kind::Text => Ok(outcome_of(draw_text(given, cells))),
        Kind::PageCount => Ok(outcome_of(preview_sheet::checked(
            given.opening,
            given.styles,
            given.titles,
            given.text,
            cells,
        ))),
    }
}
