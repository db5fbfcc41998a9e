//! The names of a base: players, events, sites and rounds, and the file that keeps them.
//!
//! Each kind is a set of byte strings without repeats, and a name's place in its set is its id.
#![tactic(auto)]

mod fault;
mod field;
mod header;
mod kind;
mod kind_reader;
mod name_lists;
mod name_set;
mod part_names;
mod reading;
mod round_trip;
mod writing;

pub use fault::{NameFault, NameWhat, NamesError};
pub use kind::NameKind;
pub use name_lists::{AddError, Names};
pub use part_names::{PartNames, read_part_names};
pub use reading::read_names;
pub use round_trip::{written_form_is_one, written_names_are_read};
pub use writing::write_names;
