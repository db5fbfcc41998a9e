//! Filters: which games of a base are looked at, and at which ply each of them matched.
//!
//! A [`Filter`] has one entry per game: the ply at which the game is in, or none if it is out.
//! It is what every search and every filter command works on.
#![tactic(auto)]

mod entries;
mod filter;
mod op;
mod plies;
mod renumbering;

pub use filter::Filter;
pub use op::Op;
pub use renumbering::Renumbering;
