//! Crosstables: the names that play in an event, ranked by their points, and the results of the games between them. No record is read.
//! The half points of all names together are twice the games with a known result (`half_points_are_shared`).
#![tactic(auto)]

mod entrants;
mod fault;
mod laws;
mod names;
mod played;
mod row;
mod score;
mod table;
mod writing;

pub use fault::CrossError;
pub use laws::half_points_are_shared;
pub use table::{Table, cross};
