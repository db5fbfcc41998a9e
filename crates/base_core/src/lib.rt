//! The base: its files opened and checked to their first fault, and its games.
#![tactic(auto)]

mod base;
mod checking;
mod draft;
mod entries;
mod fault;
mod game;
mod games;
mod laws;
mod long_records;
mod marking;
mod naming;
mod opening;
mod part_read;
mod placing;
mod reading;
mod saving;
mod taking;
mod uses;

pub use base::Base;
pub use checking::misplaced;
pub use draft::Draft;
pub use fault::{
    BaseFault, DerivedField, DraftError, EditError, IdField, NoGame, OpenError, PlaceWhat,
    SaveError, What,
};
pub use laws::{
    carried_bases_stay, files_have_one_meaning, files_mean_a_base_or_have_a_fault,
    open_bases_have_one_meaning, searches_see_the_games,
};
pub use reading::mended_entry;
