// `line_count` and `line_width` of a text in a block.
ghost use Rattle.std.specs.Prelude.{◌≡◌};
ghost use Rattle.test_answers.specs.TextsExtra.{measures_sum};

use line_composer::Wrap;
use test_blocks::parts::Part;
use test_blocks::titles;
use test_sums::with_number;
use test_texts::Case;

// Returns the checksum of a text's rows, wrapped and unwrapped, and its columns.
fn sum_measures(wrapped: u32, unwrapped: u32, columns: u32) -> u32
    ensures { result ≡ measures_sum wrapped unwrapped columns }
{
    with_number(with_number(with_number(0, wrapped), unwrapped), columns)
}

// Returns the unwrapped setting. A case's column is below 65,536.
fn unwrapped(column: u32) -> Wrap {
    Wrap::Off {
        column: (column % 65536) as u16,
    }
}

// Returns the checksum of the rows wrapped, the rows unwrapped, and the columns. The block and its titles are those of the inner-area
// case with the same number.
pub fn measures(case: Case, text: &[u32]) -> Option<u32> {
    let framed = Part::Inner.case(case.number);
    let mut records = [0u32; 6];
    let n = titles::write_titles(&mut records, framed.manner.titles, framed.seed);
    let titles = &records[..n];
    let block = framed.block;
    let ambiguous = case.ambiguous;
    let on = Wrap::On { trim: case.trim };
    let off = unwrapped(case.column);
    let wrapped = measure::line_count(text, ambiguous, titles, block, on, case.limit).ok()?;
    let unwrapped = measure::line_count(text, ambiguous, titles, block, off, case.limit).ok()?;
    let columns = measure::line_width(text, ambiguous, titles, block).ok()?;
    Some(sum_measures(wrapped, unwrapped, columns))
}
