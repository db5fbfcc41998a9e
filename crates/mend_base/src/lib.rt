//! Mending a base that has faults: a new base of all games that are whole.
#![tactic(auto)]

mod devices;
mod fault;
mod fields;
mod finding;
mod fronts;
mod heading;
mod keeping;
mod laws;
mod loose;
mod marks;
mod mending;
mod report;
mod ways;

pub use fault::MendError;
pub use fronts::Faulty;
pub use laws::{
    entries_come_first, faultless_files_come_over_whole, sound_bases_come_over,
    whole_games_stay_as_they_are,
};
pub use mending::{Mended, mend};
pub use report::{Note, Report};
pub use ways::Sought;
