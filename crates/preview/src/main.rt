// Reads a packed notice from a file or standard input, and prints it.
#![tactic(auto)]

use std::io;

fn main(rt: HostRuntime) -> io::Result<()> {
    preview_run::run(&rt)
}
