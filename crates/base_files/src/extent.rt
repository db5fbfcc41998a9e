//! Where a record stands in the games file.

/// Where a record stands in the games file: its first byte, from 0, and its number of bytes.
#[derive(Clone, Copy, Debug, PartialEq, Eq)]
pub struct Extent {
    pub offset: u64,
    pub len: u32,
}
