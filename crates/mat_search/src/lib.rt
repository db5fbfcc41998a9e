//! Search of games by the men on the board: games are passed over by their signatures, and no memory is taken.
#![tactic(auto)]

mod first_ply;
mod laws;
mod looking;
mod matching;
mod searching;
mod standing;
mod streaks;

pub use laws::{first_plies_are_first, tests_are_sound};
pub use matching::passes;
pub use searching::search;
pub use sig_index::{MatQuery, MatRange};
