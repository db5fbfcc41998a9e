//! Filters that are kept by name, beside the current one: what one user of an open base has alone. Nothing here knows a
//! base.
#![tactic(auto)]

mod following;
mod saved;
mod seat;

pub use following::{Moved, follow};
pub use saved::{
    SavedFilter, forget, keep, leave_out, meet, named, put_at_start, renumber_all, take_from, unite,
};
pub use seat::Seat;
