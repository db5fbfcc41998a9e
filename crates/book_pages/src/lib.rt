//! The pages of an opening book: which positions have one, the rows of each, the games that are listed on each, and the ways that lead there.
#![tactic(auto)]

mod book;
mod counting;
mod fault;
mod finding;
mod least;
mod listing;
mod met;
mod order;
mod reach;
mod tally;
mod trail;

pub use book::Book;
pub use fault::BookError;
pub use finding::{Boards, find_boards};
pub use listing::Listed;
pub use order::Order;
pub use reach::{DEEPEST, Reach};
pub use trail::Way;
