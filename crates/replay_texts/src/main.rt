// Compares the port with the original Rust on texts: data/wrapped, data/tally, data/truncated and data/measures have the checksum
// of its answer to each case.
#![tactic(auto)]

mod replaying;

use std::io;

fn main(rt: HostRuntime) -> io::Result<()> {
    replaying::replay(&rt)
}
