//! Why a names file is not read.
use crate::NameKind;
use std::alloc::{AllocError, AllocFailed};
use std::fmt;
use thiserror::Error;

/// What is wrong with the bytes of a names file.
#[derive(Clone, Copy, Debug, Drop, PartialEq, Eq, PartialOrd, Ord, Hash, Error)]
pub enum NameWhat {
    /// The file ends too early.
    #[error("the file ends too early")]
    Short,
    /// The file does not begin with `Scid.sn` and a zero byte.
    #[error("not a names file")]
    Magic,
    /// A kind has more names than a base holds.
    #[error("too many names")]
    Count,
    /// An id is not below the number of names of its kind.
    #[error("an id past the number of names")]
    IdRange,
    /// An id stands twice in a kind.
    #[error("an id that stands twice")]
    IdTwice,
    /// The prefix that a name shares is longer than this name or the one before.
    #[error("a shared prefix that is too long")]
    Prefix,
    /// A name holds a zero byte.
    #[error("a zero byte in a name")]
    Zero,
    /// A name stands twice in a kind.
    #[error("a name that stands twice")]
    Repeated,
}

/// The first fault of a names file, in the order of its bytes.
#[derive(Clone, Copy, Debug, Drop, PartialEq, Eq, Hash)]
pub struct NameFault {
    /// The kind of the faulty name, or none in the header.
    pub kind: Option<NameKind>,
    /// The number of names of the kind that stand before it; 0 in the header.
    pub index: u32,
    pub what: NameWhat,
}

impl fmt::Display for NameFault {
    fn fmt<W: fmt::Write>(&self, f: &mut fmt::Formatter<W>) -> fmt::Result {
        match self.kind {
            None => write!(f, "header: {}", self.what),
            Some(kind) => write!(f, "{kind} {}: {}", self.index, self.what),
        }
    }
}

impl std::error::Error for NameFault {}

/// Why `read_names` gives no names.
#[derive(Clone, Copy, Debug, Drop, PartialEq, Eq, Error)]
pub enum NamesError {
    #[error("{0}")]
    Bad(NameFault),
    #[error("out of memory")]
    Memory,
}

impl From<AllocError> for NamesError {
    ghost use Rattle.std.specs.Prelude.{◌≡◌};
    ghost use Rattle.name_base.specs.declared.fault.NamesError.TheVariants.{Memory};

    ghost from_gives = { λ _ e. e ≡ Memory };

    fn from(_: AllocError) -> Self {
        NamesError::Memory
    }
}

impl<T: Drop> From<AllocFailed<T>> for NamesError {
    ghost use Rattle.std.specs.Prelude.{◌≡◌};
    ghost use Rattle.name_base.specs.declared.fault.NamesError.TheVariants.{Memory};

    ghost from_gives = { λ _ e. e ≡ Memory };

    fn from(_: AllocFailed<T>) -> Self {
        NamesError::Memory
    }
}
