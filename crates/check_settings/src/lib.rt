// Checks of screen, styles, symbols and limits: causes 1, 2, 6, 7, 8 and 9.
#![tactic(auto)]

pub mod limits;
pub mod screen;
pub mod styles;
