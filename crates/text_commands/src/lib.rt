//! The commands that write what the base has: games, lists of games, and its numbers.
#![tactic(auto)]

mod game_texts;
mod listing;
mod showing;

pub use game_texts::{export, show};
pub use listing::list;
pub use showing::{info, quit};
