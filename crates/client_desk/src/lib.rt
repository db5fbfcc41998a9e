//! Clients on one base: each has its own seat, with a filter, filters that are kept by name and slots that show trees.
//! What one client changes of the base is brought to all. Nothing here knows a base.
#![tactic(auto)]

mod change;
mod client;
mod desk;
mod echoing;
mod fault;
mod parts;
mod seat;

pub use change::Change;
pub use client::Client;
pub use desk::Desk;
pub use fault::{KeepError, SlotError};
pub use seat::Seat;
