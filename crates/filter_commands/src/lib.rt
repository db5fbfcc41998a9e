//! The commands on the filter and on the filters that are kept by name.
#![tactic(auto)]

mod filters;

pub use filters::{and, clear, drop_filter, keep_filter, negate, or, reset, restrict, take};
