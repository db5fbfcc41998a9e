//! Why a text is no table of opening codes.
use chess_text::SanFault;
use std::alloc::{AllocError, AllocFailed};
use std::fmt;
use thiserror::Error;

/// What is wrong with a line of a table.
#[derive(Clone, Copy, Debug, Drop, PartialEq, Eq, Error)]
pub enum EcoWhat {
    /// 65,536 lines with a code stand before this one.
    #[error("too many lines")]
    Lines,
    /// The first word is no opening code.
    #[error("bad code")]
    Code,
    /// A later word is no move.
    #[error("{0}")]
    San(SanFault),
    /// The line ends on the board of the earlier line with this number, with the same side to move.
    #[error("repeated position")]
    Twice(u32),
}

/// The first fault of a table, in the order of its lines and then of their words.
#[derive(Clone, Copy, Debug, Drop, PartialEq, Eq)]
pub struct EcoFault {
    /// The number of the faulty line. Lines count from 1, all lines included.
    pub line: u32,
    pub what: EcoWhat,
}

impl fmt::Display for EcoFault {
    fn fmt<W: fmt::Write>(&self, f: &mut fmt::Formatter<W>) -> fmt::Result {
        write!(f, "line {}: {}", self.line, self.what)
    }
}

impl std::error::Error for EcoFault {}

/// Why a text gives no table.
#[derive(Clone, Copy, Debug, Drop, PartialEq, Eq, Error)]
pub enum EcoError {
    #[error("{0}")]
    Bad(EcoFault),
    #[error("out of memory")]
    Memory,
}

impl From<AllocError> for EcoError {
    ghost use Rattle.std.specs.Prelude.{◌≡◌};
    ghost use Rattle.eco_class.specs.declared.fault.EcoError.TheVariants.{Memory};

    ghost from_gives = { λ _ e. e ≡ Memory };

    fn from(_: AllocError) -> Self {
        EcoError::Memory
    }
}

impl<T: Drop> From<AllocFailed<T>> for EcoError {
    ghost use Rattle.std.specs.Prelude.{◌≡◌};
    ghost use Rattle.eco_class.specs.declared.fault.EcoError.TheVariants.{Memory};

    ghost from_gives = { λ _ e. e ≡ Memory };

    fn from(_: AllocFailed<T>) -> Self {
        EcoError::Memory
    }
}
