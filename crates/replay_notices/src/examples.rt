// Draws and prints document 01's examples of unwrapped lines: "Wabc" in 4 columns.
ghost use Rattle.std.specs.Prelude.{◌<◌, ◌^◌};

use layout::Rect;
use line_composer::Wrap;
use render_text::TextSettings;
use std::io;
use text::{Alignment, AmbiguousWidth, glyph, head};

// Returns the settings of an unwrapped text, scrolled right by `column`.
fn settings(column: u16) -> TextSettings {
    TextSettings {
        style: 0,
        text_style: 0,
        alignment: Alignment::Left,
        wrap: Wrap::Off { column },
        scroll: 0,
        ambiguous: AmbiguousWidth::Narrow,
    }
}

// Returns a glyph of width 1.
fn letter(symbol: u32) -> u32
    requires { symbol < 2 ^ 21 }
{
    glyph::pack(symbol, 1, false, 0)
}

// Draws and prints the example with a head.
fn print_line(rt: &impl Print, head: u32, column: u16) -> io::Result<()> {
    let styles = [0u64; 1];
    let wide = glyph::pack(87, 2, false, 0);
    let text = [head, wide, letter(97), letter(98), letter(99)];
    let mut cells = [cell::blank(); 4];
    let area = Rect {
        x: 0,
        y: 0,
        width: 4,
        height: 1,
    };
    // A refusal would leave the row blank.
    let _ = draw_text::draw_text(4, 1, &mut cells, &styles, &text, area, settings(column));
    test_print::print_row(rt, &cells)
}

pub fn print_all(rt: &impl Print) -> io::Result<()> {
    rt.print("unwrapped Wabc in 4, left, scrolled right by 1: ")?;
    print_line(rt, head::pack(0, 0), 1)?;
    rt.print("unwrapped Wabc in 4, left, scrolled right by 2: ")?;
    print_line(rt, head::pack(0, 0), 2)?;
    rt.print("unwrapped Wabc in 4, right, scrolled right by 1: ")?;
    print_line(rt, head::pack(2, 0), 1)
}
