// Wraps one text line: `WordWrapper` of reflow.rs, with its pending graphemes as runs of records.
#![tactic(auto)]

use wrapping::Run;

mod process_input;

// State of the word wrapper within one text line (reflow.rs: `WordWrapper`). `at` is the index of the next record to read,
// `emitted` is set once a line has been emitted, and `live` is set while lines may remain.
#[derive(Clone, Copy)]
pub struct WordWrapper {
    pub row: Run,
    pub spaces: Run,
    pub word: Run,
    pub solid: bool,
    pub emitted: bool,
    pub live: bool,
    pub at: usize,
}
