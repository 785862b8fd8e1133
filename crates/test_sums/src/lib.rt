// Checksums by which answers are compared.
#![tactic(auto)]

ghost use Rattle.std.specs.Prelude.{◌≡◌};
ghost use Rattle.test_sums.specs.SumsExtra.{with_number, with_entry, entries_sum};

use test_texts::numbers::step;

pub mod replay;
pub mod stored;

// Returns a checksum extended by a number.
#[tactic(auto, unfolding(crate::specs::SumsExtra::with_number))]
pub fn with_number(sum: u32, number: u32) -> u32
    ensures { result ≡ with_number sum number }
{
    step(sum, 2654435769, number)
}

// Returns a checksum extended by an entry: its upper half, then its lower.
#[tactic(auto, unfolding(crate::specs::SumsExtra::with_entry))]
fn with_entry(sum: u32, entry: u64) -> u32
    ensures { result ≡ with_entry sum entry }
{
    let upper = (entry / 4294967296) as u32;
    let lower = (entry % 4294967296) as u32;
    with_number(with_number(sum, upper), lower)
}

// Returns the checksum of entries (composed lines or cells): of their count, then of each.
#[tactic(auto, unfolding(crate::specs::SumsExtra::entries_sum))]
pub fn sum_entries(entries: &[u64]) -> u32
    ensures { result ≡ entries_sum entries.now }
{
    let count = (entries.len() % 4294967296) as u32;
    entries
        .iter()
        .fold(count, |sum, entry| with_entry(sum, *entry))
}
