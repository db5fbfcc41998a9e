//! Runs of commands: what a list of commands makes of a plain state, the text that it writes, and how it may end early.
//!
//! The states and the commands are whatever the user gives. A command that writes item by item is a run of its items,
//! with a plain machine of its own. So the same laws serve the loop over a script and the loop inside a command.
//!
//! A text may have a tag before each of its lines: a sink over another one puts it there. The lines go out in pages, so
//! that a text of many short pieces is few writes, and whoever has the page writes what waits at the end.
#![tactic(auto)]

mod line;
mod page;
mod sink;
mod tagged_writing;
mod way;
mod writing;

pub use page::TagPage;
pub use sink::{Opens, TaggedSink};
pub use tagged_writing::write_tagged;
pub use way::Way;
pub use writing::{write_from, write_text};
