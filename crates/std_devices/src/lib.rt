//! The devices of the outside over the standard library: a reader as a source, a writer as a sink, and the files of a base on a disk.
#![tactic(auto)]

mod ahead;
mod back;
mod bounds;
mod claim;
mod disk_base;
mod disk_files;
mod found;
mod held;
mod new_games;
mod opening;
mod places;
mod renames;
mod rights;
mod shown;
mod std_sink;
mod std_source;
mod streams;
mod text_out;
mod trouble;
mod waiting;

pub use back::{Righted, put_right};
pub use disk_files::DiskFiles;
pub use shown::Shown;
pub use std_sink::StdSink;
pub use std_source::StdSource;
pub use streams::hold_standard_streams;
pub use text_out::{AfterText, TextOut};
