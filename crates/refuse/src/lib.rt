// Causes of refusal and their numbers; `check_settings`, `check_records` and `check_block` have the checks.
#![tactic(auto)]

ghost use Rattle.std.specs.Prelude.{◌≡◌, [], ◌∷◌};
ghost use Rattle.refuse.specs.Refusal.{refusal_number, ◌if◌, first_cause};
ghost use Rattle.refuse.specs.Causes.{most_accepted};

// Causes of refusal, in the order of document 01's table: the error of every call that checks its inputs.
#[derive(Clone, Copy, Debug, PartialEq, Eq)]
pub enum Refusal {
    Screen,
    Styles,
    TextLength,
    TextHeads,
    Titles,
    StyleNumber,
    Symbol,
    Limit,
    ListLength,
}

// Largest sizes that a call accepts.
#[derive(Clone, Copy)]
pub struct Ceilings {
    pub columns: u32,
    pub rows: u32,
    pub styles: usize,
    pub records: usize,
    pub titles: usize,
    pub title_glyphs: usize,
    pub limit: u16,
}

// The ceilings of document 01.
pub const ACCEPTED: Ceilings = Ceilings {
    columns: 512,
    rows: 256,
    styles: 64,
    records: 16384,
    titles: 16,
    title_glyphs: 256,
    limit: 4096,
};

impl Ceilings {
    // Returns the ceilings of every call.
    pub fn accepted() -> Ceilings
        ensures { result ≡ most_accepted }
    {
        ACCEPTED
    }
}

impl From<Refusal> for u32 {
    // The number of a cause in document 01's table.
    ghost from_gives = { λ why number. number ≡ refusal_number why };

    fn from(why: Refusal) -> u32 {
        match why {
            Refusal::Screen => 1,
            Refusal::Styles => 2,
            Refusal::TextLength => 3,
            Refusal::TextHeads => 4,
            Refusal::Titles => 5,
            Refusal::StyleNumber => 6,
            Refusal::Symbol => 7,
            Refusal::Limit => 8,
            Refusal::ListLength => 9,
        }
    }
}

// Returns the verdict of one check: refused for the cause if it holds.
pub fn refuse_if(holds: bool, why: Refusal) -> Result<(), Refusal>
    ensures { result ≡ first_cause (why if holds ∷ []) }
{
    if holds {
        return Err(why);
    }
    Ok(())
}
