//! The commands on the slots that show trees, and the one call that brings their views up to date.
#![tactic(auto)]

mod laws;
mod showing;
mod viewing;
mod watching;
mod window;

pub use laws::changes_are_those_of_games;
pub use showing::show;
pub use viewing::{unwatch, view};
pub use watching::watch;
pub use window::Window;
