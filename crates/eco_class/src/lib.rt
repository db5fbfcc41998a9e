//! Opening codes: a table of lines of moves with their codes, and the code of a game by the last of its positions that the table has.
#![tactic(auto)]

mod cutting;
mod fault;
mod laws;
mod moves;
mod table;

pub use fault::{EcoError, EcoFault, EcoWhat};
pub use laws::{codes_are_of_last_positions, lines_end_apart};
pub use table::EcoTable;
