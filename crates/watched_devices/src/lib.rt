//! What a program says of how far it is, on one line of standard error, and devices whose work is told there.
#![tactic(auto)]

mod progress;
mod watched;

pub use progress::ProgressLine;
pub use watched::Watched;
