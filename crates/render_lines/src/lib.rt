// Drawing of a text's lines in an area: paragraph.rs: `render_lines` and the line skipping of `Paragraph::render_paragraph`.
#![tactic(auto)]

ghost use Rattle.std.specs.Prelude.{◌≡◌, length};
ghost use Rattle.buffer.specs.Drawing.{drawn};
ghost use Rattle.buffer.specs.PartsExtra.{AreaOnScreen};
ghost use Rattle.render_lines.specs.Rows.{text_on, rows_drawn, placed_on, clipped_on};
ghost use Rattle.render_lines.specs.DrawingExtra.{Composable, ComposerAt, lines_for};

use buffer::Screen;
use layout::Rect;
use line_composer::{LineComposer, Method};
use text::Alignment;
use wrapping::Rule;

// Counts of the rows drawn and of the glyphs placed and clipped in them.
#[derive(Clone, Copy)]
pub struct DrawCounts {
    pub rows: u32,
    pub placed: u32,
    pub clipped: u32,
}

// How a text is composed and drawn: `style` is a style number, `scroll` the first line drawn.
#[derive(Clone, Copy)]
pub struct TextOptions {
    pub rule: Rule,
    pub method: Method,
    pub default_alignment: Alignment,
    pub style: u8,
    pub scroll: u16,
}

// Returns the composer positioned before the scroll row of a text, or after the last line if there are fewer.
fn skip_lines(text: &[u32], options: TextOptions) -> LineComposer
    requires { Composable text.now }
    ensures { ComposerAt options.rule options.method options.default_alignment text.now options.scroll result }
{
    let mut composer = LineComposer::new(options.rule, options.method, text);
    for _ in 0..options.scroll {
        let Some(_) = composer.next(options.rule, options.default_alignment, text) else {
            return composer;
        };
    }
    composer
}

// Draws the lines of a text from the scroll row on, one per row of an area on the screen (paragraph.rs: `render_lines`).
pub fn render_lines(
    screen: Screen,
    cells: &mut [u64],
    styles: &[u64],
    text: &[u32],
    area: Rect,
    options: TextOptions,
) -> DrawCounts
    requires composable { Composable text.now }
    requires area_on_screen { AreaOnScreen screen (length cells.old) area }
    ensures cells { let drawing = text_on styles.now options.style (lines_for options text.now) area options.scroll in
        cells.new ≡ drawn screen.columns drawing cells.old }
    ensures rows { result.rows ≡ rows_drawn (lines_for options text.now) area options.scroll }
    ensures placed { result.placed ≡ placed_on (lines_for options text.now) area options.scroll }
    ensures clipped { result.clipped ≡ clipped_on (lines_for options text.now) area options.scroll }
{
    let rule = options.rule;
    let mut composer = skip_lines(text, options);
    let mut placed = 0;
    let mut clipped = 0;
    for row in 0..area.height {
        let Some(line) = composer.next(rule, options.default_alignment, text) else {
            return DrawCounts {
                rows: u32::from(row),
                placed,
                clipped,
            };
        };
        let glyphs = render_line::render_line(
            screen,
            cells,
            styles,
            options.style,
            rule,
            text,
            area,
            row,
            line,
        );
        placed += glyphs.placed;
        clipped += glyphs.clipped;
    }
    DrawCounts {
        rows: u32::from(area.height),
        placed,
        clipped,
    }
}
