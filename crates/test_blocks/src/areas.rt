// Random areas: inside a screen, across its edges and outside.
ghost use Rattle.std.specs.Prelude.{◌<◌, ◌≤◌};
ghost use Rattle.test_blocks.specs.ScreensExtra.{Accepted};

use crate::words::four_on;
use buffer::Screen;
use layout::Rect;
use test_texts::random::{below, next};

// Returns the number of cells of a screen.
pub fn cells_of(screen: Screen) -> usize {
    usize::from(screen.columns) * usize::from(screen.rows)
}

// Returns a random index below the length of a row or column.
fn place(x: u32, cells: u16) -> u16
    requires { 0 < cells }
    ensures { result < cells }
{
    below(x, u32::from(cells)) as u16
}

// Returns the start of an area along a row or column.
fn start(x: u32, cells: u16) -> u16
    requires { 0 < cells }
{
    match below(x, 16) {
        0..=3 => 0,
        4 => cells - 1,
        5 => cells,
        6 => 65535,
        _ => place(next(x), cells),
    }
}

// Returns the size of an area along a row or column.
fn size(x: u32, cells: u16) -> u16
    requires cells_nonzero { 0 < cells }
    requires cells_bound { cells < 65535 }
{
    match below(x, 16) {
        0 => 0,
        1..=3 => 1,
        4 | 5 => 2,
        6 => cells,
        7 => cells + 1,
        8 => 65535,
        _ => 1 + place(next(x), cells),
    }
}

// Returns a size from half to one and a half of the row or column.
fn roomy_size(x: u32, cells: u16) -> u16
    requires cells_nonzero { 0 < cells }
    requires cells_bound { cells ≤ 512 }
{
    1 + cells / 2 + place(x, cells)
}

// Returns an area with at least half of the screen's columns and rows, made from x and the next three random numbers.
pub fn roomy(x: u32, screen: Screen) -> Rect
    requires { Accepted screen }
{
    let y = next(next(x));
    Rect {
        x: below(x, 4) as u16,
        y: below(y, 2) as u16,
        width: roomy_size(next(x), screen.columns),
        height: roomy_size(next(y), screen.rows),
    }
}

// Returns an area made from x and the next seven random numbers.
pub fn area(x: u32, screen: Screen) -> Rect
    requires { Accepted screen }
{
    let y = four_on(x);
    Rect {
        x: start(x, screen.columns),
        y: start(y, screen.rows),
        width: size(next(next(x)), screen.columns),
        height: size(next(next(y)), screen.rows),
    }
}
