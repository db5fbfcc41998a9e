//! What is wrong with a record, and why one is not read or written.
ghost use Rattle.std.specs.Prelude.{◌≡◌};
ghost use Rattle.game_codec.specs.declared.fault.EncodeError.TheVariants as encode;

use move_codec::MoveFault;
use std::alloc::AllocError;
use thiserror::Error;

/// What is wrong at a place of a record. The first fault of the bytes counts.
#[derive(Clone, Copy, Debug, PartialEq, Eq, Error)]
pub enum RecordWhat {
    /// An extra tag begins with a code from 251 to 254, which stands for no name.
    #[error("a code that stands for no tag name")]
    TagCode,
    /// A byte of an extra tag's name is none that a name may have.
    #[error("a byte in a tag name that no name has")]
    TagName,
    /// A value has a zero byte, or a packed date has a year above 2047 or a month above 12.
    #[error("a zero byte in a value, or a date out of range")]
    TagValue,
    /// The text of an own start is no FEN.
    #[error("a start that is no position")]
    Fen,
    /// A move is faulty.
    #[error("a bad move: {0}")]
    Move(MoveFault),
    /// A NAG or a variation stands before the first move of its line, or the end of a variation in the main line, or the
    /// end of the game in a variation.
    #[error("a mark out of place")]
    Mark,
    /// A second comment stands at one place.
    #[error("a second comment")]
    TwoComments,
    /// More than 200 variations are open.
    #[error("a variation too deep")]
    Depth,
    /// Bytes follow the last comment.
    #[error("bytes behind the record")]
    Extra,
    /// The record ends early.
    #[error("the record ends too early")]
    Short,
}

/// The first fault of a record: what is wrong, and at which byte, counted from 0. The place is the first byte of the
/// faulty item, and the record's length if it ends early.
#[derive(Clone, Copy, Debug, PartialEq, Eq, Error)]
#[error("byte {place}: {what}")]
pub struct RecordFault {
    pub place: u32,
    pub what: RecordWhat,
}

/// Why a record was not decoded.
#[derive(Clone, Copy, Debug, PartialEq, Eq, Error)]
pub enum DecodeError {
    /// The bytes are no record.
    #[error("{0}")]
    Bad(RecordFault),
    /// Memory was refused.
    #[error("out of memory")]
    Memory,
}

/// Why a game was not encoded.
#[derive(Clone, Copy, Debug, PartialEq, Eq, Error)]
pub enum EncodeError {
    /// The record would have this length, which is above 131,071 bytes.
    #[error("the record would have {0} bytes")]
    TooLong(u64),
    /// Memory was refused.
    #[error("out of memory")]
    Memory,
}

impl From<AllocError> for EncodeError {
    ghost from_gives = { λ _ error. error ≡ encode.Memory };

    fn from(_refused: AllocError) -> EncodeError {
        EncodeError::Memory
    }
}
