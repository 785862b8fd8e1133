// Writing of a composed line's glyphs on a row: the loop of paragraph.rs: `render_line`.
#![tactic(auto)]

ghost use Rattle.std.specs.Prelude.{◌≡◌, ◌+◌, ◌^◌, ◌<◌, length, get_or, set};
ghost use Rattle.text.specs.Line.{FewRecords};
ghost use Rattle.place.specs.Place.{place_of};
ghost use Rattle.render_glyphs.specs.WritingExtra.{is_written, symbol_written, cell_with, written_at, with_place, starts_of, Wrote};

use cell::BLANK_SYMBOL;
use place::Place;
use text::glyph;
use wrapping::Rule;

// Counts of the glyphs placed and clipped on a row.
#[derive(Clone, Copy)]
pub struct GlyphCounts {
    pub placed: u32,
    pub clipped: u32,
}

impl GlyphCounts {
    // Counts one more glyph, by its place. A halved glyph is clipped.
    #[tactic(auto, unfolding(crate::specs::WritingExtra::with_place))]
    fn add_glyph(&mut self, place: Place)
        requires { self.old.placed + self.old.clipped + 1 < 2 ^ 32 }
        ensures { self.new ≡ with_place self.old place }
    {
        match place {
            Place::ZeroWidth => {}
            Place::Placed => self.placed += 1,
            Place::Halved | Place::Outside => self.clipped += 1,
        }
    }
}

// Writes a symbol in the cell of a column, then the text style, then the style with the number given.
fn write_cell(
    row: &mut [u64],
    styles: &[u64],
    text_style: u64,
    column: usize,
    symbol: u64,
    style: u8,
)
    requires { (column < length row.old) × (symbol < 2 ^ 21) }
    ensures { let cell = cell_with styles.now text_style symbol style (get_or row.old column 0) in
        row.new ≡ set row.old column cell }
{
    let own_style = buffer::style_at(styles, style);
    let written = cell::set_style(text_style, cell::set_symbol(symbol, row[column]));
    row[column] = cell::set_style(own_style, written);
}

// Whether a glyph is written: if it is placed or halved.
fn is_written(place: Place) -> bool
    ensures { result ≡ is_written place }
{
    matches!(place, Place::Placed | Place::Halved)
}

// Returns the symbol that is written for a glyph's symbol: the blank one if the glyph is halved.
fn symbol_written(place: Place, symbol: u32) -> u64
    requires { symbol < 2 ^ 21 }
    ensures { (result ≡ symbol_written place symbol) × (result < 2 ^ 21) }
{
    if let Place::Halved = place {
        return BLANK_SYMBOL;
    }
    u64::from(symbol)
}

// Writes a glyph by its place: a placed one in the cell of its column, a halved one as a blank, the others not at all.
fn write_glyph(
    row: &mut [u64],
    styles: &[u64],
    text_style: u64,
    column: usize,
    width: usize,
    word: u32,
) -> Place
    requires { column + width < 2 ^ 32 }
    ensures place { result ≡ place_of (length row.old) column width }
    ensures cells { row.new ≡ written_at styles.now text_style result column word row.old }
{
    let place = Place::of_glyph(row.len(), column, width);
    if is_written(place) {
        let symbol = symbol_written(place, glyph::symbol(word));
        let style = glyph::style(word) as u8;
        write_cell(row, styles, text_style, column, symbol, style);
        return place;
    }
    place
}

// Writes the glyphs of a line's records on the cells from its start column on. Skips those wider than the limit, which aren't
// part of the line.
pub fn write_glyphs(
    row: &mut [u64],
    styles: &[u64],
    style: u8,
    rule: Rule,
    records: &[u32],
) -> GlyphCounts
    requires { FewRecords records.now }
    ensures { Wrote styles.now style (starts_of rule 0 records.now) row.old row.new result }
{
    let text_style = buffer::style_at(styles, style);
    let mut counts = GlyphCounts {
        placed: 0,
        clipped: 0,
    };
    let mut column = 0;
    for &word in records {
        let Some(width) = rule.fitting(word) else {
            continue;
        };
        let place = write_glyph(row, styles, text_style, column, width, word);
        counts.add_glyph(place);
        column += width;
    }
    counts
}
