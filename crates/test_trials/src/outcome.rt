// What comes of a call under test.
ghost use Rattle.std.specs.Prelude.{◌≡◌};
ghost use Rattle.refuse.specs.Refusal.{verdict_number};
ghost use Rattle.test_trials.specs.OutcomesExtra.{outcome_number};

use refuse::Refusal;
use std::fmt;

// The call is accepted or refused, its pages don't show the text, or its notice can't be parsed.
#[derive(Clone, Copy, PartialEq, Eq)]
pub enum Outcome {
    Accepted,
    Refused(Refusal),
    Misread,
    Unparsed,
}

// Returns the outcome of a call that answers.
pub fn outcome_of<T: Copy>(answer: Result<T, Refusal>) -> Outcome
    ensures { outcome_number result ≡ verdict_number answer }
{
    match answer {
        Ok(_) => Outcome::Accepted,
        Err(why) => Outcome::Refused(why),
    }
}

impl From<Outcome> for u32 {
    // The number by which the inputs name the outcome that they expect.
    ghost from_gives = { λ outcome number. number ≡ outcome_number outcome };

    fn from(outcome: Outcome) -> u32 {
        match outcome {
            Outcome::Accepted => 0,
            Outcome::Refused(why) => u32::from(why),
            Outcome::Misread => 98,
            Outcome::Unparsed => 99,
        }
    }
}

impl fmt::Display for Outcome {
    fn fmt<W: fmt::Write>(&self, f: &mut fmt::Formatter<W>) -> fmt::Result {
        write!(f, "{}", u32::from(*self))
    }
}
