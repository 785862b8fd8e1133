// Cause 1; causes 1 and 2 for calls with a screen and styles.
ghost use Rattle.std.specs.Prelude.{◌≡◌, ◌<◌, ◌^◌};
ghost use Rattle.buffer.specs.Screen.{screen_of};
ghost use Rattle.refuse.specs.Refusal.{first_cause};
ghost use Rattle.refuse.specs.Causes.{one_to, screen_wrong, screen_causes};

use crate::styles;
use buffer::Screen;
use refuse::{Ceilings, Refusal, refuse_if};

// Whether 1 <= n <= most.
fn is_one_to(most: u32, n: u32) -> bool
    ensures { result ≡ one_to most n }
{
    (1..=most).contains(&n)
}

// Cause 1: whether columns or rows are out of range, or the number of cells isn't columns × rows.
#[tactic(auto, unfolding(refuse::specs::Causes::screen_wrong))]
pub fn screen_wrong(most: Ceilings, columns: u32, rows: u32, cells: usize) -> bool
    ensures { result ≡ screen_wrong most columns rows cells }
{
    !is_one_to(most.columns, columns)
        || !is_one_to(most.rows, rows)
        || cells != (columns as usize) * (rows as usize)
}

// Returns the verdict of causes 1 and 2, lowest first.
#[tactic(auto, unfolding(refuse::specs::Causes::screen_causes))]
pub fn screen_verdict(
    most: Ceilings,
    columns: u32,
    rows: u32,
    cells: usize,
    styles: &[u64],
) -> Result<(), Refusal>
    ensures { result ≡ first_cause (screen_causes most columns rows cells styles.now) }
{
    refuse_if(screen_wrong(most, columns, rows, cells), Refusal::Screen)?;
    refuse_if(styles::styles_wrong(most, styles), Refusal::Styles)
}

// Returns the screen of an accepted call, whose columns and rows fit in 16 bits.
pub fn screen_size(columns: u32, rows: u32) -> Screen
    requires { (columns < 2 ^ 16) × (rows < 2 ^ 16) }
    ensures { result ≡ screen_of columns rows }
{
    Screen {
        columns: columns as u16,
        rows: rows as u16,
    }
}
