//! The lines of a script and the bodies behind them, read from a source one after the other.
#![tactic(auto)]

mod body;
mod clients;
mod laws;
mod line;
mod place;
mod reader;

pub use body::{Begins, Body, NoBody};
pub use clients::Clients;
pub use laws::{clients_end_with_quit, readers_meet_the_lines, tasks_are_lines_with_their_bodies};
pub use line::{Line, Order, body_word, is_quit};
pub use place::{At, Place};
pub use reader::{LineReader, ReadError, Taken};
