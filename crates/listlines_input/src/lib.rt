// Parses the input of the program `listlines`, high byte first: limit (2 bytes), trim (byte 0 or 1), then records of 4 bytes.
#![tactic(auto)]

ghost use Rattle.std.specs.Prelude.{◌≡◌, ◌+◌, ◌<◌, ◌≤◌, ◌++◌, length, drop};
ghost use Rattle.listlines_input.specs.Input.{limit_of, number_at, records_of, most_records, incomplete, trim_wrong, parsed_of, holding};
ghost use Rattle.listlines_input.specs.Flaw.{flaw_number};
ghost use Rattle.listlines_input.specs.declared.Flaw.TheVariants.{Listed};

use refuse::Refusal;

// The settings of an input, and the count of its records.
#[derive(Clone, Copy)]
pub struct Input {
    pub limit: u16,
    pub trim: bool,
    pub records: usize,
}

// Why an input is refused: its form is wrong, or a cause of the calls' table holds.
#[derive(Clone, Copy)]
pub enum Flaw {
    Form,
    Listed(Refusal),
}

impl From<Refusal> for Flaw {
    ghost from_gives = { λ why flaw. flaw ≡ Listed why };

    fn from(why: Refusal) -> Flaw {
        Flaw::Listed(why)
    }
}

// The number printed: that of the table, or 0.
impl From<Flaw> for u32 {
    ghost from_gives = { λ flaw number. number ≡ flaw_number flaw };

    fn from(flaw: Flaw) -> u32 {
        match flaw {
            Flaw::Form => 0,
            Flaw::Listed(why) => u32::from(why),
        }
    }
}

// Returns the limit, the first two bytes.
fn limit(input: &[u8]) -> u16
    requires { 3 ≤ length input.now }
    ensures { result ≡ limit_of input.now }
{
    u16::from_be_bytes([input[0], input[1]])
}

// Returns the record whose first byte is at index `at`.
fn record_at(input: &[u8], at: usize) -> u32
    requires { at + 3 < length input.now }
    ensures { result ≡ number_at input.now at }
{
    u32::from_be_bytes([input[at], input[at + 1], input[at + 2], input[at + 3]])
}

// Whether bytes of the first three or of the last record are missing.
#[tactic(auto, unfolding(crate::specs::Input::incomplete))]
fn is_incomplete(input: &[u8]) -> bool
    ensures { result ≡ incomplete input.now }
{
    input.len() < 3 || (input.len() - 3) % 4 != 0
}

// Whether the third byte is neither 0 nor 1.
fn trim_wrong(input: &[u8]) -> bool
    requires { 3 ≤ length input.now }
    ensures { result ≡ trim_wrong input.now }
{
    1 < input[2]
}

// Stores an input's records at the start of `text`. By index: a loop over `iter_mut().zip(..)` has no name for the whole slice that
// it changes.
fn store_records(input: &[u8], count: usize, text: &mut [u32])
    requires count_value { count ≡ length (records_of input.now) }
    requires count_in_bounds { count ≤ length text.old }
    ensures { text.new ≡ records_of input.now ++ drop count text.old }
{
    for i in 0..count {
        text[i] = record_at(input, 3 + 4 * i);
    }
}

// Parses an input and stores its records at the start of `text`, which a refusal leaves unchanged.
pub fn parse(input: &[u8], text: &mut [u32]) -> Result<Input, Flaw>
    requires { most_records ≤ length text.old }
    ensures value { result ≡ parsed_of input.now }
    ensures text_after { text.new ≡ holding result (records_of input.now) text.old }
{
    if is_incomplete(input) {
        return Err(Flaw::Form);
    }
    if trim_wrong(input) {
        return Err(Flaw::Form);
    }
    let records = (input.len() - 3) / 4;
    if 4096 < records {
        return Err(Flaw::Listed(Refusal::TextLength));
    }
    store_records(input, records, text);
    Ok(Input {
        limit: limit(input),
        trim: input[2] == 1,
        records,
    })
}
