// Stores numbers of an input at the start of a slice. By index: a loop over `iter_mut().zip(..)` has no name for the whole slice that
// it changes. Two functions: of a generic one each caller would have to show that its closure's results are `numbers_from`.
ghost use Rattle.std.specs.Prelude.{◌≡◌, ◌+◌, ◌*◌, ◌≤◌, ◌++◌, length, drop};
ghost use Rattle.preview_file.specs.NumbersExtra.{number4, number8, numbers_from};

use crate::numbers::{number_4, number_8};

// Stores `count` styles, the first at byte `from`.
pub fn store_styles(input: &[u8], from: usize, count: usize, styles: &mut [u64])
    requires count_in_bounds { from + 8 * count ≤ length input.now }
    requires count_in_bounds_2 { count ≤ length styles.old }
    ensures { styles.new ≡ numbers_from (number8 input.now) 8 from count ++ drop count styles.old }
{
    for i in 0..count {
        styles[i] = number_8(input, from + 8 * i);
    }
}

// Stores `count` records, the first at byte `from`.
pub fn store_records(input: &[u8], from: usize, count: usize, records: &mut [u32])
    requires count_in_bounds { from + 4 * count ≤ length input.now }
    requires count_in_bounds_2 { count ≤ length records.old }
    ensures { records.new ≡ numbers_from (number4 input.now) 4 from count ++ drop count records.old }
{
    for i in 0..count {
        records[i] = number_4(input, from + 4 * i);
    }
}
