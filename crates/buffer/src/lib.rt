// The cells of a screen; applying a style or a symbol to the cells of a rectangle (`Buffer` of ratatui-core).
#![tactic(auto)]

ghost use Rattle.std.specs.Prelude.{◌≡◌, ◌+◌, ◌*◌, ◌<◌, ◌≤◌, length};
ghost use Rattle.buffer.specs.Drawing.{changed, drawn, over, area_of, style_at};
ghost use Rattle.buffer.specs.InkExtra.{inked, SymbolFits};
ghost use Rattle.buffer.specs.PartsExtra.{in_row, OnScreen};

use layout::Rect;

// Size of a screen in cells. It is passed beside the cells: a struct that holds the `&mut` slice was tried, and its caller then knows
// nothing of the slice's cells after a call.
#[derive(Clone, Copy)]
pub struct Screen {
    pub columns: u16,
    pub rows: u16,
}

// What is applied to a cell: a style, a symbol, or a symbol and then a style.
#[derive(Clone, Copy)]
pub enum Ink {
    Style(u64),
    Symbol(u64),
    Both(u64, u64),
}

impl Screen {
    // Returns the rectangle of all cells.
    pub fn area(self) -> Rect
        ensures { result ≡ area_of self }
    {
        Rect {
            x: 0,
            y: 0,
            width: self.columns,
            height: self.rows,
        }
    }
}

// Applies an ink to a cell.
#[tactic(auto, unfolding(crate::specs::InkExtra::inked))]
pub fn ink_cell(ink: Ink, cell: u64) -> u64
    requires { SymbolFits ink }
    ensures { result ≡ inked ink cell }
{
    match ink {
        Ink::Style(style) => cell::set_style(style, cell),
        Ink::Symbol(symbol) => cell::set_symbol(symbol, cell),
        Ink::Both(symbol, style) => cell::set_style(style, cell::set_symbol(symbol, cell)),
    }
}

// Applies an ink to every cell of a slice.
fn paint_row(cells: &mut [u64], ink: Ink)
    requires { SymbolFits ink }
    ensures { cells.new ≡ changed (λ i cell. inked ink cell) cells.old }
{
    for cell in cells.iter_mut() {
        *cell = ink_cell(ink, *cell);
    }
}

// Applies an ink to the cells of row y from column `left` up to `right`.
fn paint_row_part(columns: usize, cells: &mut [u64], y: usize, left: usize, right: usize, ink: Ink)
    requires symbol_fits { SymbolFits ink }
    requires columns_nonzero { (0 < columns) × (left ≤ right) × (right ≤ columns) × (y * columns + right ≤ length cells.old) }
    ensures { cells.new ≡ drawn columns (in_row left right y (λ i cell. inked ink cell)) cells.old }
{
    let start = y * columns + left;
    let end = y * columns + right;
    paint_row(&mut cells[start..end], ink);
}

// Applies an ink to every cell of a rectangle within the screen (`Buffer::set_style`, if the ink is a style).
pub fn paint_area(screen: Screen, cells: &mut [u64], area: Rect, ink: Ink)
    requires symbol_fits { SymbolFits ink }
    requires on_screen { OnScreen screen (length cells.old) area }
    ensures { cells.new ≡ drawn screen.columns (over area (inked ink)) cells.old }
{
    let columns = screen.columns as usize;
    let left = area.x as usize;
    let right = area.right() as usize;
    let bottom = area.bottom() as usize;
    for y in area.y as usize..bottom {
        paint_row_part(columns, cells, y, left, right, ink);
    }
}

// Returns the style with a number, or 0 if there is none.
pub fn style_at(styles: &[u64], number: u8) -> u64
    ensures { result ≡ style_at styles.now number }
{
    styles.get(usize::from(number)).copied().unwrap_or(0)
}
