//! The pages of an opening book as HTML, with one style sheet, one script, and nothing from anywhere else.
#![tactic(auto)]

mod board;
mod cells;
mod cutting;
mod frame;
mod game;
mod games;
mod moves;
mod numbers;
mod openings;
mod place;
mod script;
mod site;
mod style;
mod text;
mod way;

pub use frame::{file_name, game_file_name};
pub use moves::{Led, push_table};
pub use openings::{Opening, Openings, OpeningsFault};
pub use script::SCRIPT;
pub use site::Site;
pub use style::STYLE;
pub use text::push_text;
