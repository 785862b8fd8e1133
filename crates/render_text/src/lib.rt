// Drawing of a notice's text in an area: the body of paragraph.rs: `Paragraph::render_paragraph`.
#![tactic(auto)]

ghost use Rattle.std.specs.Prelude.{◌≡◌, false, length};
ghost use Rattle.layout.specs.Rect.{is_empty};
ghost use Rattle.buffer.specs.Drawing.{drawn};
ghost use Rattle.buffer.specs.PartsExtra.{AreaOnScreen};
ghost use Rattle.render_lines.specs.DrawingExtra.{Composable};
ghost use Rattle.render_text.specs.SettingsExtra.{text_options_of, lines_on, lines_counted};

use buffer::{Ink, Screen};
use layout::Rect;
use line_composer::{Method, Wrap};
use render_lines::{DrawCounts, TextOptions};
use text::{Alignment, AmbiguousWidth};
use wrapping::Rule;

// Settings of a notice without its block. `style` and `text_style` are style numbers, `alignment` is the default of its lines,
// `scroll` the first line drawn, `ambiguous` how ambiguous glyphs are read.
#[derive(Clone, Copy)]
pub struct TextSettings {
    pub style: u8,
    pub text_style: u8,
    pub alignment: Alignment,
    pub wrap: Wrap,
    pub scroll: u16,
    pub ambiguous: AmbiguousWidth,
}

// Returns the options that `render_lines` takes, at a width.
fn text_options(notice: TextSettings, width: u16) -> TextOptions
    ensures { result ≡ text_options_of notice width }
{
    let limit = width as usize;
    let default_alignment = notice.alignment;
    let style = notice.text_style;
    let scroll = notice.scroll;
    let wrap = notice.wrap;
    let ambiguous = notice.ambiguous;
    match wrap {
        Wrap::On { trim } => TextOptions {
            rule: Rule {
                limit,
                trim,
                ambiguous,
            },
            method: Method::WordWrap,
            default_alignment,
            style,
            scroll,
        },
        Wrap::Off { column } => TextOptions {
            rule: Rule {
                limit,
                trim: false,
                ambiguous,
            },
            method: Method::Truncate(column as u32),
            default_alignment,
            style,
            scroll,
        },
    }
}

// Applies the notice's style to a non-empty area on the screen, then draws its lines.
pub fn render_text(
    screen: Screen,
    cells: &mut [u64],
    styles: &[u64],
    text: &[u32],
    inner: Rect,
    notice: TextSettings,
) -> DrawCounts
    requires composable { Composable text.now × (is_empty inner ≡ false) }
    requires area_on_screen { AreaOnScreen screen (length cells.old) inner }
    ensures cells { let drawing = lines_on styles.now text.now notice inner in
        cells.new ≡ drawn screen.columns drawing cells.old }
    ensures counts { result ≡ lines_counted text.now notice inner }
{
    let ink = Ink::Style(buffer::style_at(styles, notice.style));
    buffer::paint_area(screen, cells, inner, ink);
    let options = text_options(notice, inner.width);
    render_lines::render_lines(screen, cells, styles, text, inner, options)
}
