// The calls' answers as flat structs, for callers without enums.
#![tactic(auto)]

ghost use Rattle.std.specs.Prelude.{◌≡◌};
ghost use Rattle.refuse.specs.Refusal.{verdict_number};
ghost use Rattle.flat_answers.specs.AnswerExtra.{list_flat, tally_flat, area_flat, draw_flat, measure_flat, pages_flat};

use notice::{DrawCounts, PageCounts, Rect, Refusal, TallyCounts};

// Answer of a list call: count of lines written, and 0 or the number of the refusal.
#[repr(C)]
#[derive(Clone, Copy)]
pub struct FlatListAnswer {
    pub lines: usize,
    pub number: u32,
}

// Answer of a tally: 0 or the number of the refusal, and the counts.
#[repr(C)]
#[derive(Clone, Copy)]
pub struct FlatTallyAnswer {
    pub number: u32,
    pub lines: u32,
    pub placed: u32,
    pub clipped: u32,
    pub zero_width: u32,
    pub over_wide: u32,
    pub dropped: u32,
}

// Answer of `inner` or `draw_frame`: 0 or the number of the refusal, and the inner area.
#[repr(C)]
#[derive(Clone, Copy)]
pub struct FlatAreaAnswer {
    pub number: u32,
    pub x: u16,
    pub y: u16,
    pub width: u16,
    pub height: u16,
}

// Answer of `draw_text`: 0 or the number of the refusal, and the counts of rows drawn, glyphs placed and clipped.
#[repr(C)]
#[derive(Clone, Copy)]
pub struct FlatDrawAnswer {
    pub number: u32,
    pub rows: u32,
    pub placed: u32,
    pub clipped: u32,
}

// Answer of `line_count` or `line_width`: 0 or the number of the refusal, and the count of lines or columns.
#[repr(C)]
#[derive(Clone, Copy)]
pub struct FlatMeasureAnswer {
    pub number: u32,
    pub value: u32,
}

// Answer of `pages`: 0 or the number of the refusal, the inner area, and the counts of lines and pages.
#[repr(C)]
#[derive(Clone, Copy)]
pub struct FlatPagesAnswer {
    pub number: u32,
    pub x: u16,
    pub y: u16,
    pub width: u16,
    pub height: u16,
    pub lines: u32,
    pub pages: u32,
}

// Returns 0, or the number of the refusal. Not a `From`: the trait and both types are the library's.
pub fn verdict_number(verdict: Result<(), Refusal>) -> u32
    ensures { result ≡ verdict_number verdict }
{
    match verdict {
        Ok(_) => 0,
        Err(why) => u32::from(why),
    }
}

impl FlatListAnswer {
    // The answer of a call that is refused, or has a number that names no case: its number and zeros.
    pub fn refused(number: u32) -> FlatListAnswer
        ensures { result ≡ record { lines = 0; number = number } }
    {
        FlatListAnswer { number, lines: 0 }
    }
}

impl From<Result<usize, Refusal>> for FlatListAnswer {
    ghost from_gives = { λ answer flat. flat ≡ list_flat answer };

    #[tactic(auto, unfolding(crate::specs::AnswerExtra::list_flat))]
    fn from(answer: Result<usize, Refusal>) -> FlatListAnswer {
        match answer {
            Ok(lines) => FlatListAnswer { lines, number: 0 },
            Err(why) => FlatListAnswer::refused(u32::from(why)),
        }
    }
}

impl FlatTallyAnswer {
    // The answer of a call that is refused, or has a number that names no case: its number and zeros.
    pub fn refused(number: u32) -> FlatTallyAnswer
        ensures { result ≡ record { number = number; lines = 0; placed = 0; clipped = 0; zero_width = 0; over_wide = 0; dropped = 0 } }
    {
        FlatTallyAnswer {
            number,
            lines: 0,
            placed: 0,
            clipped: 0,
            zero_width: 0,
            over_wide: 0,
            dropped: 0,
        }
    }
}

impl From<Result<TallyCounts, Refusal>> for FlatTallyAnswer {
    ghost from_gives = { λ answer flat. flat ≡ tally_flat answer };

    #[tactic(auto, unfolding(crate::specs::AnswerExtra::tally_flat))]
    fn from(answer: Result<TallyCounts, Refusal>) -> FlatTallyAnswer {
        match answer {
            Ok(counts) => FlatTallyAnswer {
                number: 0,
                lines: counts.lines,
                placed: counts.placed,
                clipped: counts.clipped,
                zero_width: counts.zero_width,
                over_wide: counts.over_wide,
                dropped: counts.dropped,
            },
            Err(why) => FlatTallyAnswer::refused(u32::from(why)),
        }
    }
}

impl FlatAreaAnswer {
    // The answer of a call that is refused, or has a number that names no case: its number and zeros.
    pub fn refused(number: u32) -> FlatAreaAnswer
        ensures { result ≡ record { number = number; x = 0; y = 0; width = 0; height = 0 } }
    {
        FlatAreaAnswer {
            number,
            x: 0,
            y: 0,
            width: 0,
            height: 0,
        }
    }
}

impl From<Result<Rect, Refusal>> for FlatAreaAnswer {
    ghost from_gives = { λ answer flat. flat ≡ area_flat answer };

    #[tactic(auto, unfolding(crate::specs::AnswerExtra::area_flat))]
    fn from(answer: Result<Rect, Refusal>) -> FlatAreaAnswer {
        match answer {
            Ok(area) => FlatAreaAnswer {
                number: 0,
                x: area.x,
                y: area.y,
                width: area.width,
                height: area.height,
            },
            Err(why) => FlatAreaAnswer::refused(u32::from(why)),
        }
    }
}

impl FlatDrawAnswer {
    // The answer of a call that is refused, or has a number that names no case: its number and zeros.
    pub fn refused(number: u32) -> FlatDrawAnswer
        ensures { result ≡ record { number = number; rows = 0; placed = 0; clipped = 0 } }
    {
        FlatDrawAnswer {
            number,
            rows: 0,
            placed: 0,
            clipped: 0,
        }
    }
}

impl From<Result<DrawCounts, Refusal>> for FlatDrawAnswer {
    ghost from_gives = { λ answer flat. flat ≡ draw_flat answer };

    #[tactic(auto, unfolding(crate::specs::AnswerExtra::draw_flat))]
    fn from(answer: Result<DrawCounts, Refusal>) -> FlatDrawAnswer {
        match answer {
            Ok(rows) => FlatDrawAnswer {
                number: 0,
                rows: rows.rows,
                placed: rows.placed,
                clipped: rows.clipped,
            },
            Err(why) => FlatDrawAnswer::refused(u32::from(why)),
        }
    }
}

impl FlatMeasureAnswer {
    // The answer of a call that is refused, or has a number that names no case: its number and zeros.
    pub fn refused(number: u32) -> FlatMeasureAnswer
        ensures { result ≡ record { number = number; value = 0 } }
    {
        FlatMeasureAnswer { number, value: 0 }
    }
}

impl From<Result<u32, Refusal>> for FlatMeasureAnswer {
    ghost from_gives = { λ answer flat. flat ≡ measure_flat answer };

    #[tactic(auto, unfolding(crate::specs::AnswerExtra::measure_flat))]
    fn from(answer: Result<u32, Refusal>) -> FlatMeasureAnswer {
        match answer {
            Ok(value) => FlatMeasureAnswer { number: 0, value },
            Err(why) => FlatMeasureAnswer::refused(u32::from(why)),
        }
    }
}

impl FlatPagesAnswer {
    // The answer of a call that is refused, or has a number that names no case: its number and zeros.
    pub fn refused(number: u32) -> FlatPagesAnswer
        ensures { result ≡ record { number = number; x = 0; y = 0; width = 0; height = 0; lines = 0; pages = 0 } }
    {
        FlatPagesAnswer {
            number,
            x: 0,
            y: 0,
            width: 0,
            height: 0,
            lines: 0,
            pages: 0,
        }
    }
}

impl From<Result<PageCounts, Refusal>> for FlatPagesAnswer {
    ghost from_gives = { λ answer flat. flat ≡ pages_flat answer };

    #[tactic(auto, unfolding(crate::specs::AnswerExtra::pages_flat))]
    fn from(answer: Result<PageCounts, Refusal>) -> FlatPagesAnswer {
        match answer {
            Ok(counts) => FlatPagesAnswer {
                number: 0,
                x: counts.inner.x,
                y: counts.inner.y,
                width: counts.inner.width,
                height: counts.inner.height,
                lines: counts.lines,
                pages: counts.pages,
            },
            Err(why) => FlatPagesAnswer::refused(u32::from(why)),
        }
    }
}
