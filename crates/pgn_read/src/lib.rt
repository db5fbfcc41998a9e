//! Games as text in Portable Game Notation (PGN), as they are read.
#![tactic(auto)]

mod buffer;
mod clear;
mod error;
mod field;
mod heads;
mod item;
mod laws;
mod lexing;
mod place;
mod read_tag;
mod reader;
mod reading;
mod run;
mod step;
mod tag_text;
mod token;
mod turn;
mod window;

pub use error::PgnError;
pub use item::{GameFault, GameWhat, Item};
pub use laws::{
    good_games_mean_their_movetext, items_are_read_one_by_one, texts_have_one_list_of_items,
};
pub use reader::Reader;
