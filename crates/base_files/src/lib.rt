//! The outside of the database: where its input comes from, where its output goes, and the files of a base.
#![tactic(auto)]

mod chosen;
mod extent;
mod fault_count;
mod faults;
mod files;
mod mem_files;
mod mem_sink;
mod mem_source;
mod part;
mod plan;
mod reading;
mod sink;
mod source;
mod swap;
mod writing;

pub use chosen::Choices;
pub use extent::Extent;
pub use fault_count::FaultCount;
pub use faults::{DeviceError, Failed, Stop};
pub use files::Files;
pub use mem_files::MemFiles;
pub use mem_sink::MemSink;
pub use mem_source::MemSource;
pub use part::Part;
pub use reading::{Input, read_to_limit};
pub use sink::Sink;
pub use source::Source;
pub use swap::Swap;
pub use writing::write_all;
