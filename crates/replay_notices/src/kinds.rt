// Counts of the cases that place a glyph, clip one, or draw no row; they show that most cases draw something.
use std::fmt;
use test_answers::notices::Drawing;

#[derive(Clone, Copy)]
pub struct Kinds {
    placing: u32,
    clipping: u32,
    rowless: u32,
}

// Returns a count, and one more if a case is of its kind. A part has fewer than 2^32 cases, so that it never saturates.
fn counted(count: u32, is_one: bool) -> u32 {
    count.saturating_add(u32::from(is_one))
}

impl Kinds {
    pub fn new() -> Kinds {
        Kinds {
            placing: 0,
            clipping: 0,
            rowless: 0,
        }
    }

    // Counts an accepted call.
    pub fn count(&mut self, drawing: Drawing) {
        let counts = drawing.counts;
        self.placing = counted(self.placing, 0 < counts.placed);
        self.clipping = counted(self.clipping, 0 < counts.clipped);
        self.rowless = counted(self.rowless, counts.rows == 0);
    }
}

impl fmt::Display for Kinds {
    fn fmt<W: fmt::Write>(&self, f: &mut fmt::Formatter<W>) -> fmt::Result {
        let placing = self.placing;
        let clipping = self.clipping;
        let rowless = self.rowless;
        write!(
            f,
            "{placing} place a glyph, {clipping} clip one, {rowless} draw no row"
        )
    }
}
