// Counting of a text's composed lines, and of their glyphs by kind.
#![tactic(auto)]

ghost use Rattle.std.specs.Prelude.{◌≡◌, [], ◌∷◌, ◌+◌, ◌^◌, ◌≤◌, ◌<◌, length};
ghost use Rattle.text.specs.declared.Alignment.TheVariants.{Left};
ghost use Rattle.text.specs.Line.{Opens, FewRecords};
ghost use Rattle.place.specs.Place.{place_of};
ghost use Rattle.line_composer.specs.declared.Method.TheVariants.{WordWrap};
ghost use Rattle.line_composer.specs.Lines.{lines, line_at};
ghost use Rattle.tally_lines.specs.TallyingExtra.{empty_lines, with_glyph, sum, line_counts};

use line_composer::{LineComposer, Method, WrappedLine};
use place::Place;
use text::Alignment;
use wrapping::Rule;

// Counts of composed lines, and of their glyphs by kind.
#[derive(Clone, Copy)]
pub struct LineCounts {
    pub lines: u32,
    pub placed: u32,
    pub clipped: u32,
    pub zero_width: u32,
}

impl LineCounts {
    // Returns the counts of lines without a glyph.
    fn empty(lines: u32) -> LineCounts
        ensures { result ≡ empty_lines lines }
    {
        LineCounts {
            lines,
            placed: 0,
            clipped: 0,
            zero_width: 0,
        }
    }

    // Counts one more glyph, of width w, that starts at `column`. A halved glyph is clipped.
    #[tactic(auto, unfolding(crate::specs::TallyingExtra::with_glyph))]
    fn add_glyph(&mut self, limit: usize, column: usize, w: usize)
        requires zero_width_bound { self.old.placed + self.old.clipped + self.old.zero_width + 1 < 2 ^ 32 }
        requires w_bound { column + w < 2 ^ 32 }
        ensures { self.new ≡ with_glyph self.old (place_of limit column w) }
    {
        match Place::of_glyph(limit, column, w) {
            Place::ZeroWidth => self.zero_width += 1,
            Place::Placed => self.placed += 1,
            Place::Halved | Place::Outside => self.clipped += 1,
        }
    }

    #[tactic(auto, unfolding(crate::specs::TallyingExtra::sum))]
    fn plus(self, other: LineCounts) -> LineCounts
        requires lines_bound { (self.lines + other.lines < 2 ^ 32) × (self.placed + other.placed < 2 ^ 32) }
        requires clipped_bound { (self.clipped + other.clipped < 2 ^ 32) × (self.zero_width + other.zero_width < 2 ^ 32) }
        ensures { result ≡ sum self other }
    {
        LineCounts {
            lines: self.lines + other.lines,
            placed: self.placed + other.placed,
            clipped: self.clipped + other.clipped,
            zero_width: self.zero_width + other.zero_width,
        }
    }
}

// Counts one composed line and its glyphs.
fn one_line_counts(rule: Rule, text: &[u32], line: WrappedLine) -> LineCounts
    requires { (line.first ≤ line.end) × (line.end ≤ length text.now) × FewRecords text.now }
    ensures { result ≡ line_counts rule.limit (line_at rule text.now line ∷ []) }
{
    let mut counts = LineCounts::empty(1);
    let mut column = 0;
    for i in line.first..line.end {
        let w = rule.width(text[i]) as usize;
        if rule.limit < w {
            continue;
        }
        counts.add_glyph(rule.limit, column, w);
        column += w;
    }
    counts
}

// Counts a text's composed lines and their glyphs.
pub fn line_counts(rule: Rule, text: &[u32]) -> LineCounts
    requires { FewRecords text.now × Opens text.now }
    ensures { result ≡ line_counts rule.limit (lines rule WordWrap Left text.now) }
{
    let mut composer = LineComposer::new(rule, Method::WordWrap, text);
    let mut counts = LineCounts::empty(0);
    // By `let .. else`, as document 01 asks of a next composed line.
    loop {
        let Some(line) = composer.next(rule, Alignment::Left, text) else {
            return counts;
        };
        counts = counts.plus(one_line_counts(rule, text, line));
    }
}
