// Writes a row of cells as text, with escape sequences for colours and modifiers if asked. The bits of a cell that drawing never
// touches hold the width of its symbol here, or 0, which covers no more cells than 1; cells that a wide symbol covers are skipped.
#![tactic(auto)]

ghost use Rattle.std.specs.Prelude.{◌≡◌, ◌+◌, ◌*◌, ◌≤◌, ◌++◌, length};
ghost use Rattle.append_bytes.specs.WrittenExtra.{Written};
ghost use Rattle.arrayvec.specs.ArrayVec.{array_vec_len};
ghost use Rattle.preview_row.specs.RowExtra.{style_text, cell_text, step_text, style_after, covered_after, cells_text, end_text, row_text};

use append_bytes::put_all;
use arrayvec::ArrayVec;
use preview_sgr::push_style;
use preview_utf8::push_symbol;

// Style of the previous cell, and count of the next cells that a wide symbol covers.
#[derive(Clone, Copy)]
pub struct Pen {
    pub style: u64,
    pub covered: u64,
}

// Appends a style's sequence, if sequences are asked for and the previous style differs.
#[tactic(auto, unfolding(crate::specs::RowExtra::style_text))]
fn push_change<const N: usize>(text: &mut ArrayVec<u8, N>, ansi: bool, before: u64, style: u64)
    requires { array_vec_len text.old + 40 ≤ N }
    ensures written { text.new.items ≡ text.old.items ++ style_text ansi before style }
    ensures upper_bound { array_vec_len text.new ≤ array_vec_len text.old + 40 }
{
    if ansi && before != style {
        push_style(text, style);
    }
}

// Appends a cell's text.
#[tactic(auto, unfolding(crate::specs::RowExtra::cell_text))]
fn push_cell<const N: usize>(text: &mut ArrayVec<u8, N>, ansi: bool, before: u64, cell: u64)
    requires { array_vec_len text.old + 44 ≤ N }
    ensures written { text.new.items ≡ text.old.items ++ cell_text ansi before cell }
    ensures upper_bound { array_vec_len text.new ≤ array_vec_len text.old + 44 }
{
    push_change(text, ansi, before, cell::appearance(cell));
    push_symbol(text, cell::symbol(cell));
}

impl Pen {
    // Appends a cell's text, unless the cell is covered. Returns the pen for the next cell.
    #[tactic(auto, unfolding(crate::specs::RowExtra::step_text, crate::specs::RowExtra::style_after, crate::specs::RowExtra::covered_after))]
    fn step<const N: usize>(self, text: &mut ArrayVec<u8, N>, ansi: bool, cell: u64) -> Pen
        requires { array_vec_len text.old + 44 ≤ N }
        ensures written { text.new.items ≡ text.old.items ++ step_text ansi self.style self.covered cell }
        ensures upper_bound { array_vec_len text.new ≤ array_vec_len text.old + 44 }
        ensures style_value { result.style ≡ style_after self.style self.covered cell }
        ensures covered_value { result.covered ≡ covered_after self.covered cell }
    {
        if 0 < self.covered {
            return Pen {
                style: self.style,
                covered: self.covered - 1,
            };
        }
        push_cell(text, ansi, self.style, cell);
        Pen {
            style: cell::appearance(cell),
            covered: cell::untouched(cell).saturating_sub(1),
        }
    }
}

// Appends the text of cells.
fn push_cells<const N: usize>(text: &mut ArrayVec<u8, N>, ansi: bool, cells: &[u64])
    requires { array_vec_len text.old + 44 * length cells.now ≤ N }
    ensures written { text.new.items ≡ text.old.items ++ cells_text ansi 0 0 cells.now }
    ensures upper_bound { array_vec_len text.new ≤ array_vec_len text.old + 44 * length cells.now }
{
    let mut pen = Pen {
        style: 0,
        covered: 0,
    };
    for cell in cells {
        pen = pen.step(text, ansi, *cell);
    }
}

// Appends the end of a row.
#[tactic(auto, unfolding(crate::specs::RowExtra::end_text))]
fn push_end<const N: usize>(text: &mut ArrayVec<u8, N>, ansi: bool)
    requires { array_vec_len text.old + 41 ≤ N }
    ensures { text.new.items ≡ text.old.items ++ end_text ansi }
{
    if ansi {
        push_style(text, 0);
    }
    text.push(b'\n');
}

// Appends a row's text.
#[tactic(auto, unfolding(crate::specs::RowExtra::row_text))]
pub fn push_row<const N: usize>(text: &mut ArrayVec<u8, N>, ansi: bool, cells: &[u64])
    requires { array_vec_len text.old + 44 * length cells.now + 41 ≤ N }
    ensures { text.new.items ≡ text.old.items ++ row_text ansi cells.now }
{
    push_cells(text, ansi, cells);
    push_end(text, ansi);
}

// Writes the text of cells at the start of a buffer and returns its length in bytes.
fn put_cells(buffer: &mut [u8], ansi: bool, cells: &[u64]) -> usize
    requires { 44 * length cells.now ≤ length buffer.old }
    ensures written { Written buffer.old 0 buffer.new result (cells_text ansi 0 0 cells.now) }
    ensures upper_bound { result ≤ 44 * length cells.now }
{
    let mut pen = Pen {
        style: 0,
        covered: 0,
    };
    let mut next = 0;
    for cell in cells {
        let mut text = ArrayVec::<u8, 44>::new();
        pen = pen.step(&mut text, ansi, *cell);
        next = put_all(buffer, next, text.as_slice());
    }
    next
}

// Writes the end of a row into a buffer at offset `at` and returns the offset of the next byte.
fn put_end(buffer: &mut [u8], at: usize, ansi: bool) -> usize
    requires { at + 41 ≤ length buffer.old }
    ensures written { Written buffer.old at buffer.new result (end_text ansi) }
    ensures upper_bound { result ≤ at + 41 }
{
    let mut text = ArrayVec::<u8, 41>::new();
    push_end(&mut text, ansi);
    put_all(buffer, at, text.as_slice())
}

// Writes a row's text at the start of a buffer and returns its length in bytes.
pub fn put_row(buffer: &mut [u8], ansi: bool, cells: &[u64]) -> usize
    requires { 44 * length cells.now + 41 ≤ length buffer.old }
    ensures written { Written buffer.old 0 buffer.new result (row_text ansi cells.now) }
    ensures upper_bound { result ≤ length buffer.new }
{
    let next = put_cells(buffer, ansi, cells);
    put_end(buffer, next, ansi)
}
