//! The commands that edit games of the base, save it and compact it.
#![tactic(auto)]

mod compacting;
mod editing;
mod retagging;
mod saving;
mod tagging;

pub use compacting::compact_line;
pub use editing::{delete, mark, undelete};
pub use saving::save;
pub use tagging::tag_line;
