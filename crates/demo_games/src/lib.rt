//! Games that are made of draws from a seed, to try a base with.
#![tactic(auto)]

mod generator;
mod heads;

pub use generator::Generator;
