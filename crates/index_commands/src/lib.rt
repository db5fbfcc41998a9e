//! The commands that build the position index of the open base and drop it.
#![tactic(auto)]

mod indexing;

pub use indexing::index;
