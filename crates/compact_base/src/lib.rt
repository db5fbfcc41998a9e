//! Compaction: a base is left with its undeleted games, and its three files with these alone.
#![tactic(auto)]

mod compacting;
mod copying;
mod devices;
mod drafting;
mod fault;
mod numbering;

pub use compacting::compact;
pub use fault::CompactError;
pub use numbering::numbering_of;
