//! The search of all games of a base for whatever is asked of each: games that need not be read are left unread, and no memory is taken.
#![tactic(auto)]

mod question;
mod searching;

pub use question::Question;
pub use searching::search;
