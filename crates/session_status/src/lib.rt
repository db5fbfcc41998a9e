//! How a session ends: its status, by what ended it, and the exit code that tells the status.
#![tactic(auto)]

mod status;

pub use status::Status;
