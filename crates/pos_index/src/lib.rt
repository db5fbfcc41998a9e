//! The position index: under each board with its side to move exactly the places at which the games stand there, up to a depth.
#![tactic(auto)]

mod board_hits;
mod building;
mod fault;
mod hit;
mod hits;
mod index;
mod last;
mod lists;
mod places;
mod placing;
mod row;
mod spot;

pub use board_hits::BoardHits;
pub use fault::BuildError;
pub use hit::Hit;
pub use index::PosIndex;
pub use last::{Last, home_set, men_in};
