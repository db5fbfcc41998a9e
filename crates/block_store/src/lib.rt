//! Where records go in the games file: behind its end, and never over the end of a block.
#![tactic(auto)]

mod fault;
mod store;

pub use fault::StoreError;
pub use store::{BLOCK_LEN, LONGEST_FILE, Store, padding};
