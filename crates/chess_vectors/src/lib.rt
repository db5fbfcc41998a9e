//! Tests alone: positions, texts of positions and moves, and packed moves, beside what stands in the Laws of Chess, in the PGN standard or in another program's files.
#![tactic(auto)]

#[cfg(test)]
mod fen_tests;
#[cfg(test)]
mod packed_move_tests;
#[cfg(test)]
mod position_tests;
#[cfg(test)]
mod san_tests;
