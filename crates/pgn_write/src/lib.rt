//! Games as text in Portable Game Notation (PGN), as they are written.
#![tactic(auto)]

mod movetext;
mod tag_pairs;
mod writer;
mod writing;

pub use writing::write_game;
