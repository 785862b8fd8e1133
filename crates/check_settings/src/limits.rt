// Causes 8 and 9.
ghost use Rattle.std.specs.Prelude.{◌≡◌};
ghost use Rattle.refuse.specs.Causes.{limit_wrong, list_too_short};

use refuse::Ceilings;

// Cause 8: whether a limit is over the ceiling.
pub fn limit_wrong(most: Ceilings, limit: u16) -> bool
    ensures { result ≡ limit_wrong most limit }
{
    most.limit < limit
}

// Cause 9: whether a list is shorter than the lines to write.
pub fn list_too_short(entries: usize, lines: usize) -> bool
    ensures { result ≡ list_too_short entries lines }
{
    entries < lines
}
