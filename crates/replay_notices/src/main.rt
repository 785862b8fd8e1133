// Compares the port with the original Rust on notices: data/notices has the checksum of its answer to each case, drawn by two calls, the
// frame, then the text into the area that it answers; data/frames and data/texts have those of each call alone, the text in the case's
// area. If a glyph is clipped, the Rust writes it, inside the area or outside, or panics, so the checksum is that of the answer of documents 01
// and 02, from the independent implementation in oracle/rules. Then prints document 01's examples of unwrapped lines as rows of symbols.
#![tactic(auto)]

mod examples;
mod kinds;
mod replaying;

use std::io;

fn main(rt: HostRuntime) -> io::Result<()> {
    replaying::replay(&rt)?;
    examples::print_all(&rt)
}
