//! The commands that report on the games of the base: opening codes, crosstables and twins.
#![tactic(auto)]

mod bodies;
mod classifying;
mod crosstables;
mod eco_lines;
mod twin_marks;

pub use classifying::eco;
pub use crosstables::cross;
pub use twin_marks::twins;
