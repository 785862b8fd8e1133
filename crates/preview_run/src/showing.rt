// Shows a notice page by page.
ghost use Rattle.std.specs.Prelude.{◌≤◌, length};
ghost use Rattle.preview_file.specs.FileExtra.{most_styles, most_titles, most_text};

use crate::Asked;
use notice::{DrawCounts, Wrap};
use preview_file::Opening;
use preview_messages::Cause;
use preview_sheet::{Measure, paging, widths};
use refuse::Refusal;
use std::io;

// The records of a notice.
#[derive(Clone, Copy)]
struct Records<'a> {
    styles: &'a [u64],
    titles: &'a [u32],
    text: &'a [u32],
}

// A notice: its opening and its records.
#[derive(Clone, Copy)]
struct Sheet<'a> {
    opening: Opening,
    records: Records<'a>,
}

impl Sheet<'_> {
    // Fills the cells with `blank` and draws the notice from line `first`.
    fn draw(self, first: u16, blank: u64, cells: &mut [u64]) -> Result<DrawCounts, Refusal> {
        let Records {
            styles,
            titles,
            text,
        } = self.records;
        preview_sheet::draw(self.opening, first, blank, styles, titles, text, cells)
    }

    // Returns the count of the screen's cells, or 0 if the screen is larger than drawing accepts, which is then refused.
    fn cell_count(self) -> usize {
        let opening = self.opening;
        if 512 < opening.columns || 256 < opening.rows {
            return 0;
        }
        usize::from(opening.columns) * usize::from(opening.rows)
    }

    // Measures the notice, if it isn't refused. Its pages are asked for first, as that checks all that drawing and measuring do.
    fn measured(self, cells: &[u64]) -> Result<Measure, Refusal> {
        let opening = self.opening;
        let Records {
            styles,
            titles,
            text,
        } = self.records;
        preview_sheet::checked(opening, styles, titles, text, cells)?;
        preview_sheet::measured(opening, titles, text)
    }
}

// A page: its number, the count of pages, and its first line.
#[derive(Clone, Copy)]
struct Page {
    number: u64,
    pages: u64,
    first: u16,
}

// Returns a blank cell for drawing widths: its symbol is 1, the width of a blank.
fn blank_width() -> u64 {
    cell::set_symbol(1, cell::blank())
}

// Marks the cells of a drawn page with the widths and prints it.
fn print_page(
    rt: &impl Print,
    page: Page,
    columns: u16,
    ansi: bool,
    rows: DrawCounts,
    cells: &mut [u64],
    wide_cells: &[u64],
) -> io::Result<()> {
    widths::mark(cells, wide_cells);
    preview_messages::page(rt, page.number, page.pages)?;
    preview_messages::rows(rt, cells, usize::from(columns), ansi)?;
    preview_messages::counts(rt, rows)
}

// Draws and prints a page; `wide` is the notice with widths as symbols.
fn show_page(
    rt: &impl Print,
    page: Page,
    ansi: bool,
    sheet: Sheet,
    wide: Sheet,
    cells: &mut [u64],
    wide_cells: &mut [u64],
) -> io::Result<()> {
    let _ = wide.draw(page.first, blank_width(), wide_cells);
    match sheet.draw(page.first, cell::blank(), cells) {
        Err(why) => preview_messages::refused(rt, u32::from(why)),
        Ok(rows) => {
            let columns = sheet.opening.columns;
            print_page(rt, page, columns, ansi, rows, cells, wide_cells)
        }
    }
}

// Shows the pages that are asked for.
fn show_pages(
    rt: &impl Print,
    pages: u64,
    height: u16,
    asked: Asked,
    sheet: Sheet,
    wide: Sheet,
    cells: &mut [u64],
    wide_cells: &mut [u64],
) -> io::Result<()> {
    let mut first = sheet.opening.text.scroll;
    for number in 0..pages {
        if paging::is_asked(asked.pages, number) {
            let page = Page {
                number,
                pages,
                first,
            };
            show_page(rt, page, asked.ansi, sheet, wide, cells, wide_cells)?;
        }
        first = paging::next_first(first, height);
    }
    Ok(())
}

// Prints the tally of a notice's text at a width, if it is wrapped.
fn show_tally(rt: &impl Print, sheet: Sheet, width: u16) -> io::Result<()> {
    let settings = sheet.opening.text;
    let Wrap::On { trim } = settings.named_wrap() else {
        return Ok(());
    };
    let ambiguous = flat::ambiguous_named(settings.ambiguous);
    match notice::tally(sheet.records.text, ambiguous, width, trim) {
        Ok(counts) => preview_messages::tally(rt, counts),
        Err(why) => preview_messages::refused(rt, u32::from(why)),
    }
}

// Shows the pages of a measured notice, and its tally. They are drawn on `cells`, and with widths as symbols on `wide_cells`.
fn show_measured(
    rt: &impl Print,
    asked: Asked,
    sheet: Sheet,
    measure: Measure,
    cells: &mut [u64],
    wide_cells: &mut [u64],
) -> io::Result<()> {
    let Sheet { opening, records } = sheet;
    let pages = paging::page_count(measure.lines, opening.text.scroll, measure.height);
    if paging::is_past(asked.pages, pages) {
        return preview_messages::past_the_last(rt, pages);
    }
    let ambiguous = flat::ambiguous_named(opening.text.ambiguous);
    let mut titles = [0u32; 8192];
    let mut text = [0u32; 24576];
    widths::widen(records.titles, ambiguous, &mut titles);
    widths::widen(records.text, ambiguous, &mut text);
    let wide = Sheet {
        opening: preview_sheet::widened(opening),
        records: Records {
            styles: records.styles,
            titles: &titles[..records.titles.len().min(8192)],
            text: &text[..records.text.len().min(24576)],
        },
    };
    show_pages(
        rt,
        pages,
        measure.height,
        asked,
        sheet,
        wide,
        cells,
        wide_cells,
    )?;
    show_tally(rt, sheet, measure.width)
}

// Shows a notice on as many cells as its screen has, or prints why it is refused.
fn show_notice(
    rt: &impl Print,
    asked: Asked,
    sheet: Sheet,
    cells: &mut [u64],
    wide_cells: &mut [u64],
) -> io::Result<()> {
    let count = sheet.cell_count();
    let drawn = count.min(cells.len());
    let told = count.min(wide_cells.len());
    let cells = &mut cells[..drawn];
    match sheet.measured(cells) {
        Ok(measure) => {
            let wide_cells = &mut wide_cells[..told];
            show_measured(rt, asked, sheet, measure, cells, wide_cells)
        }
        Err(cause) => preview_messages::refused(rt, u32::from(cause)),
    }
}

// Shows a notice on cells allocated here.
fn show_on_screen(rt: &impl Print, asked: Asked, sheet: Sheet) -> io::Result<()> {
    let mut cells = [0u64; 131072];
    let mut wide_cells = [0u64; 131072];
    show_notice(rt, asked, sheet, &mut cells, &mut wide_cells)
}

// Shows the notice in an input, read as asked, if every number of its settings names a case, or prints why the input is bad.
pub fn show_input(
    rt: &impl Print,
    input: &[u8],
    asked: Asked,
    styles: &mut [u64],
    titles: &mut [u32],
    text: &mut [u32],
) -> io::Result<()>
    requires { (most_styles ≤ length styles.old) × (most_titles ≤ length titles.old) × (most_text ≤ length text.old) }
{
    let opening = match preview_file::read(input, styles, titles, text) {
        Ok(opening) => opening,
        Err(flaw) => return preview_messages::bad_input(rt, flaw),
    };
    let records = Records {
        styles: &styles[..opening.styles.min(styles.len())],
        titles: &titles[..opening.titles.min(titles.len())],
        text: &text[..opening.records.min(text.len())],
    };
    let opening = preview_sheet::read_as(opening, asked.wide);
    // Before the cells are allocated.
    if !flat::all_known(opening.block, opening.text) {
        return preview_messages::refused(rt, u32::from(Cause::Setting));
    }
    show_on_screen(rt, asked, Sheet { opening, records })
}
