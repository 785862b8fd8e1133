// Draws a notice page by page and reads each page back.
use crate::calls::Given;
use crate::outcome::Outcome;
use crate::reading::{after_area, is_solid};
use block::Block;
use buffer::Screen;
use layout::Rect;
use line_composer::Wrap;
use preview_sheet::paging;
use render_lines::DrawCounts;
use std::io;
use tally::TallyCounts;

// Totals over the pages: their number, the sums of the calls' counts, and the text records after the last one read, None after a
// glyph that isn't the text's next one.
#[derive(Clone, Copy)]
struct Sums<'a> {
    pages: u32,
    rows: u32,
    placed: u32,
    clipped: u32,
    unread: Option<&'a [u32]>,
}

impl<'a> Sums<'a> {
    fn new(text: &'a [u32]) -> Sums<'a> {
        Sums {
            pages: 0,
            rows: 0,
            placed: 0,
            clipped: 0,
            unread: Some(text),
        }
    }

    fn with_page(self, counts: DrawCounts, unread: Option<&'a [u32]>) -> Sums<'a> {
        Sums {
            pages: self.pages.wrapping_add(1),
            rows: self.rows.wrapping_add(counts.rows),
            placed: self.placed.wrapping_add(counts.placed),
            clipped: self.clipped.wrapping_add(counts.clipped),
            unread,
        }
    }

    // Whether rows and glyph counts equal the tally's, and no solid glyph of the text is left unread.
    fn agrees(self, counts: TallyCounts) -> bool {
        let Some(unread) = self.unread else {
            return false;
        };
        counts.lines == self.rows
            && counts.placed == self.placed
            && counts.clipped == self.clipped
            && !unread.iter().any(|record| is_solid(*record))
    }
}

// Draws the page that starts at line `first` on blank cells and reads it. A refused page adds nothing.
fn read_page<'a>(
    given: Given<'a>,
    inside: Rect,
    sums: Sums<'a>,
    first: u16,
    cells: &mut [u64],
) -> Sums<'a> {
    let Ok(counts) = preview_sheet::draw(
        given.opening,
        first,
        cell::blank(),
        given.styles,
        given.titles,
        given.text,
        cells,
    ) else {
        return sums;
    };
    match sums.unread {
        Some(unread) => sums.with_page(counts, after_area(unread, inside, cells)),
        None => sums.with_page(counts, None),
    }
}

// Draws and reads `pages` pages.
fn read_pages<'a>(given: Given<'a>, inside: Rect, pages: u64, cells: &mut [u64]) -> Sums<'a> {
    let mut sums = Sums::new(given.text);
    let mut first = 0;
    for _ in 0..pages {
        sums = read_page(given, inside, sums, first, cells);
        first = paging::next_first(first, inside.height);
    }
    sums
}

// Draws and reads all pages; returns their totals and the tally, or None if a call refuses or the text isn't wrapped.
fn read_all<'a>(given: Given<'a>, cells: &mut [u64]) -> Option<(Sums<'a>, TallyCounts)> {
    let opening = given.opening;
    let settings = opening.text;
    let screen = Screen {
        columns: opening.columns,
        rows: opening.rows,
    };
    let met = Rect::from(opening.area).intersection(screen.area());
    let inside = inner::inner(Block::from(opening.block), given.titles, met).ok()?;
    let Wrap::On { trim } = settings.named_wrap() else {
        return None;
    };
    let ambiguous = flat::ambiguous_named(settings.ambiguous);
    let counts = tally::tally(given.text, ambiguous, inside.width, trim).ok()?;
    let pages = paging::page_count(counts.lines, 0, inside.height);
    Some((read_pages(given, inside, pages, cells), counts))
}

// Returns whether the pages of a notice show its solid glyphs in order. Prints the numbers of pages and of glyphs placed.
pub fn read_back(rt: &impl Print, given: Given, cells: &mut [u64]) -> io::Result<Outcome> {
    let Some((sums, counts)) = read_all(given, cells) else {
        return Ok(Outcome::Misread);
    };
    print!(rt; "{} pages, {} glyphs placed, ", sums.pages, sums.placed)?;
    Ok(if sums.agrees(counts) {
        Outcome::Accepted
    } else {
        Outcome::Misread
    })
}
