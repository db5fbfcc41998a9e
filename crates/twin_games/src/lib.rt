//! Twins: the undeleted games of a base before each of which an undeleted one stands with the same names, date, result and first moves.
#![tactic(auto)]

mod counting;
mod fault;
mod finding;
mod laws;
mod meeting;
mod opening;
mod pairing;

pub use fault::TwinError;
pub use finding::twins;
pub use laws::twins_are_those_listed;
