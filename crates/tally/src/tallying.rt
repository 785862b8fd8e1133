// Counting of a text's glyphs by kind.
ghost use Rattle.std.specs.Prelude.{◌≡◌};
ghost use Rattle.text.specs.Line.{Opens, FewRecords};
ghost use Rattle.tally.specs.Tally.{tally_of};
ghost use Rattle.tally.specs.TallyingExtra.{glyph_counts};

use crate::{TallyCounts, TextGlyphCounts};
use text::glyph::WIDEST;
use text::{head, line};
use wrapping::Rule;

// Counts a text's glyphs, the records that aren't heads, and the over-wide ones among them, by reading their widths.
fn read_glyph_counts(rule: Rule, text: &[u32]) -> TextGlyphCounts
    requires { FewRecords text.now }
    ensures { result ≡ glyph_counts rule text.now }
{
    let mut glyphs = 0;
    let mut over_wide = 0;
    for &glyph_or_head in text {
        if head::is_head(glyph_or_head) {
            continue;
        }
        glyphs += 1;
        if rule.limit < rule.width(glyph_or_head) as usize {
            over_wide += 1;
        }
    }
    TextGlyphCounts { glyphs, over_wide }
}

// Counts a text's glyphs and the over-wide ones among them. At a limit as large as any width there are none, and no width is read.
fn glyph_counts(rule: Rule, text: &[u32]) -> TextGlyphCounts
    requires { FewRecords text.now }
    ensures { result ≡ glyph_counts rule text.now }
{
    if rule.limit < WIDEST {
        return read_glyph_counts(rule, text);
    }
    let heads = line::count_text_lines(text);
    let count = text.len() - heads;
    let glyphs = count as u32;
    TextGlyphCounts {
        glyphs,
        over_wide: 0,
    }
}

// Returns the tally of a text. Every glyph is emitted, over-wide or dropped, so the dropped ones are the remainder.
pub fn text_counts(rule: Rule, text: &[u32]) -> TallyCounts
    requires { FewRecords text.now × Opens text.now }
    ensures { result ≡ tally_of rule text.now }
{
    if rule.limit == 0 {
        return TallyCounts {
            lines: 0,
            placed: 0,
            clipped: 0,
            zero_width: 0,
            over_wide: 0,
            dropped: 0,
        };
    }
    let lines = tally_lines::line_counts(rule, text);
    let glyphs = glyph_counts(rule, text);
    TallyCounts {
        lines: lines.lines,
        placed: lines.placed,
        clipped: lines.clipped,
        zero_width: lines.zero_width,
        over_wide: glyphs.over_wide,
        dropped: glyphs.glyphs - glyphs.over_wide - lines.placed - lines.clipped - lines.zero_width,
    }
}
