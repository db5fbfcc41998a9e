//! The commands that take games in from Portable Game Notation: behind the others, and in the place of one.
#![tactic(auto)]

mod importing;
mod item_lines;
mod paging;
mod replacing;

pub use importing::import;
pub use replacing::replace_line;
