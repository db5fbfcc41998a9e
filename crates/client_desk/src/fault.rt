//! What a seat refuses.
ghost use Rattle.std.specs.Prelude.{◌≡◌};
ghost use Rattle.client_desk.specs.declared.fault.KeepError.TheVariants as keeping;
ghost use Rattle.client_desk.specs.declared.fault.SlotError.TheVariants as watching;

use std::alloc::AllocError;
use thiserror::Error;

/// Why a filter is not kept.
#[derive(Clone, Copy, Debug, PartialEq, Eq, Error)]
pub enum KeepError {
    /// The name is new, and eight filters are kept.
    #[error("full filters")]
    Full,
    /// Memory ran out.
    #[error("out of memory")]
    Memory,
}

impl From<AllocError> for KeepError {
    ghost from_gives = { λ _ e. e ≡ keeping.Memory };

    fn from(_refused: AllocError) -> KeepError {
        KeepError::Memory
    }
}

/// Why a slot is not watched.
#[derive(Clone, Copy, Debug, PartialEq, Eq, Error)]
pub enum SlotError {
    /// There is no such slot, or no view stands in it.
    #[error("no view")]
    NoView,
    /// Memory ran out.
    #[error("out of memory")]
    Memory,
}

impl From<AllocError> for SlotError {
    ghost from_gives = { λ _ e. e ≡ watching.Memory };

    fn from(_refused: AllocError) -> SlotError {
        SlotError::Memory
    }
}
