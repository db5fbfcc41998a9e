//! The commands that search the games, those that write what a search left, and the one that searches games which it makes of draws.
#![tactic(auto)]

mod demoing;
mod heads;
mod hit_lines;
mod material;
mod positions;
mod trees;

pub use demoing::demo;
pub use heads::search_header;
pub use hit_lines::hits;
pub use material::material_games;
pub use positions::{find_games, position_games};
pub use trees::tree;
