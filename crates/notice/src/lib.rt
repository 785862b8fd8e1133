// The public API of the framed notice: all calls and their types. No call has a precondition, and each one's contract, where it
// is declared, gives its whole answer. Nothing else in these crates is meant to be called.
#![tactic(auto)]

// Settings.
pub use block::{Block, BorderSet, Borders, Effect, Shadow};
pub use layout::Rect;
pub use line_composer::Wrap;
pub use padding::Padding;
pub use paragraph::Notice;
pub use render_text::TextSettings;
pub use text::{Alignment, AmbiguousWidth, TitlePosition};

// Answers: a call that is refused returns the cause.
pub use count_pages::PageCounts;
pub use refuse::Refusal;
pub use render_lines::DrawCounts;
pub use tally::TallyCounts;

// Calls.
pub use count_pages::pages;
pub use draw_block::draw_block;
pub use draw_frame::draw_frame;
pub use draw_text::draw_text;
pub use inner::inner;
pub use list_lines::list_lines;
pub use measure::{line_count, line_width};
pub use tally::tally;
