//! The session of `scid_shell`: its words, its files and its input in, one text out.
#![tactic(auto)]

mod opening;
mod run;
mod running;
mod words;

pub use run::session;
pub use session_status::Status;
