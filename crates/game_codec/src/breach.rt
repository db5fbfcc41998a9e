//! A fault in a part of a record, before its place is known, and a part that was not read.
use super::fault::RecordWhat;
use std::alloc::{AllocError, AllocFailed};

/// A fault in a part of a record, and how many bytes stand from the faulty item on.
#[derive(Clone, Copy, Debug, PartialEq, Eq)]
pub struct Breach {
    pub left: usize,
    pub what: RecordWhat,
}

/// A part of a record was not read, for a fault in it or for want of memory.
#[derive(Clone, Copy, Debug, PartialEq, Eq)]
pub struct Unread;

impl From<Breach> for Unread {
    fn from(_breach: Breach) -> Unread {
        Unread
    }
}

impl From<RecordWhat> for Unread {
    fn from(_what: RecordWhat) -> Unread {
        Unread
    }
}

impl From<AllocError> for Unread {
    fn from(_refused: AllocError) -> Unread {
        Unread
    }
}

impl<T: Drop> From<AllocFailed<T>> for Unread {
    fn from(_refused: AllocFailed<T>) -> Unread {
        Unread
    }
}
