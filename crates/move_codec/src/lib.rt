//! Packed moves: a half-move in one byte or two, by the number of the man that moves.
#![tactic(auto)]

mod fault;
mod numbered;
mod numbers;
mod targets;
mod track;
mod values;

pub use fault::MoveFault;
pub use numbered::Numbered;
pub use numbers::{NumberedMen, Numbers};
pub use track::Track;
