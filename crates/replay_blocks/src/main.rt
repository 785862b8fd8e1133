// Compares the port with the original Rust on blocks: data/inner, data/blocks and data/titled have the checksum of its answer to
// each case. Then prints document 01's two examples of titles as rows of symbols.
#![tactic(auto)]

mod examples;
mod replaying;

use std::io;

fn main(rt: HostRuntime) -> io::Result<()> {
    replaying::replay(&rt)?;
    examples::print_both(&rt)
}
