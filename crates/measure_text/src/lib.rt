// Parts of `Paragraph::line_count` and `Paragraph::line_width` (paragraph.rs): the line count at a width, the widest line, and
// the sum of a space's two numbers.
#![tactic(auto)]

ghost use Rattle.std.specs.Prelude.{◌≡◌};
ghost use Rattle.text.specs.Line.{lines_from, Opens, FewRecords};
ghost use Rattle.measure_text.specs.Measures.{lines_at, both, widest};

use block::Space;
use line_composer::Wrap;
use text::{Alignment, AmbiguousWidth, glyph, head, line};
use wrapping::Rule;

// Returns the sum of a space's two numbers.
pub fn both(space: Space) -> u32
    ensures { result ≡ both space }
{
    u32::from(space.before) + u32::from(space.after)
}

// Counts the lines of a text at a width: composed lines, or text lines if unwrapped.
pub fn lines_at(wrap: Wrap, width: u16, text: &[u32], ambiguous: AmbiguousWidth) -> usize
    requires { FewRecords text.now × Opens text.now }
    ensures { result ≡ lines_at ambiguous wrap width text.now }
{
    let Wrap::On { trim } = wrap else {
        return line::count_text_lines(text);
    };
    let rule = Rule {
        limit: width as usize,
        trim,
        ambiguous,
    };
    count_lines::count_lines(rule, Alignment::Left, text)
}

// Returns the width of the widest text line, 0 for an empty text.
pub fn widest_line(text: &[u32], ambiguous: AmbiguousWidth) -> u32
    requires { FewRecords text.now × Opens text.now }
    ensures { result ≡ widest ambiguous (lines_from 0 text.now) }
{
    let mut widest = 0;
    let mut width = 0;
    for &record in text {
        if head::is_head(record) {
            width = 0;
        } else {
            width += glyph::width(record, ambiguous);
        }
        widest = widest.max(width);
    }
    widest
}
