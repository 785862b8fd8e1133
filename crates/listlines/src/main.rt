// Prints the composed lines of the text on standard input.
#![tactic(auto)]

use std::io;

fn main(rt: HostRuntime) -> io::Result<()> {
    listlines_run::run(&mut rt.stdin(), &mut io::writer(&rt))
}
