// Checksums of the port's answers on test texts, blocks and notices; None is a refused call.
#![tactic(auto)]

pub mod blocks;
pub mod measures;
pub mod notices;
pub mod texts;
