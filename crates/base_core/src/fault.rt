//! Why a base is not opened.
ghost use Rattle.std.specs.Prelude.{◌≡◌};
ghost use Rattle.base_core.specs.Errors.{names_error, open_error, save_error, unplaced_error, unread_error, unwritten_error};
ghost use Rattle.base_core.specs.declared.fault.OpenError.TheVariants as opening;
ghost use Rattle.base_core.specs.declared.fault.EditError.TheVariants as edit;
ghost use Rattle.base_core.specs.declared.fault.SaveError.TheVariants as saving;
ghost use Rattle.base_core.specs.declared.fault.DraftError.TheVariants as drafting;

use base_files::DeviceError;
use block_store::StoreError;
use game_codec::{DecodeError, EncodeError, RecordFault};
use index_entry::{EntryFault, IndexFault};
use name_base::{NameFault, NamesError};
use sig_index::Sig;
use std::alloc::AllocError;
use thiserror::Error;

/// An id of an entry.
#[derive(Clone, Copy, Debug, Drop, PartialEq, Eq, Hash, Error)]
pub enum IdField {
    #[error("white")]
    White,
    #[error("black")]
    Black,
    #[error("event")]
    Event,
    #[error("site")]
    Site,
    #[error("round")]
    Round,
}

/// What is wrong with the place of a record in the games file.
#[derive(Clone, Copy, Debug, Drop, PartialEq, Eq, Hash, Error)]
pub enum PlaceWhat {
    /// The record crosses the end of a block of 131,072 bytes.
    #[error("crosses the end of a block")]
    Crosses,
    /// The record ends behind the end of the games file.
    #[error("ends behind the end of the file")]
    Past,
}

/// A field of an entry that repeats what the record says.
#[derive(Clone, Copy, Debug, Drop, PartialEq, Eq, Hash, Error)]
pub enum DerivedField {
    #[error("mark of an own start")]
    OwnStart,
    #[error("mark of a promotion")]
    Promotion,
    #[error("mark of an underpromotion")]
    Underpromotion,
    #[error("number of variations")]
    Variations,
    #[error("number of comments")]
    Comments,
    #[error("number of NAGs")]
    Nags,
    #[error("final material")]
    Material,
    #[error("number of half-moves")]
    Plies,
    #[error("list of pawns that left home")]
    Home,
}

/// The first fault of the files of a base, in the order in which opening looks at them. The index comes first, and then
/// the names. Then come, game by game, the fields of its entry, its ids, the place of its record, the record, and with
/// a strict opening its derived fields.
#[derive(Clone, Copy, Debug, Drop, PartialEq, Eq, Error)]
pub enum BaseFault {
    /// The index has no good header, or too few entries.
    #[error("index file: {0}")]
    Index(IndexFault),
    /// The names file is none.
    #[error("names file: {0}")]
    Names(NameFault),
    /// A field of a game's entry has a value that stands for nothing.
    #[error("index file: entry of game {game}: {what}")]
    EntryField { game: u32, what: EntryFault },
    /// An id of a game's entry is not below the number of names of its kind.
    #[error("index file: entry of game {game}: no {field} has its id")]
    Id { game: u32, field: IdField },
    /// A game's record does not lie in its place.
    #[error("games file: the record of game {game} {what}")]
    Place { game: u32, what: PlaceWhat },
    /// A game's record is none.
    #[error("games file: game {game}, {fault}")]
    Packed { game: u32, fault: RecordFault },
    /// A derived field of a game's entry differs from the record's.
    #[error("index file: entry of game {game}: its {field} is not that of the record")]
    Derived { game: u32, field: DerivedField },
}

/// Why a base is not opened.
#[derive(Clone, Copy, Debug, Drop, PartialEq, Eq, Error)]
pub enum OpenError {
    /// The files have this first fault.
    #[error("{0}")]
    Bad(BaseFault),
    /// The files failed.
    #[error("cannot read the files of the base")]
    Failed,
    /// Memory ran out.
    #[error("out of memory")]
    Memory,
}

/// The base has no game of this number.
#[derive(Clone, Copy, Debug, Drop, PartialEq, Eq, Error)]
#[error("no game {game}")]
pub struct NoGame {
    pub game: u32,
}

/// What of a base is full: its games, its names of a kind, or the games file.
#[derive(Clone, Copy, Debug, Drop, PartialEq, Eq, Hash, Error)]
pub enum What {
    #[error("games")]
    Games,
    #[error("players")]
    Players,
    #[error("events")]
    Events,
    #[error("sites")]
    Sites,
    #[error("rounds")]
    Rounds,
    #[error("file")]
    File,
}

/// Why a base does not give a game, or is not edited.
#[derive(Clone, Copy, Debug, Drop, PartialEq, Eq, Error)]
pub enum EditError {
    /// The base has no game of this number.
    #[error("no game {0}")]
    NoGame(u32),
    /// The record would have this length, which is above 131,071 bytes.
    #[error("record too long: {0} bytes")]
    TooLong(u64),
    /// This would pass its limit.
    #[error("full {0}")]
    Full(What),
    /// The record has changed since the base was opened: it is none, or that of a game with another signature, which was `found`.
    #[error("changed game {game}")]
    Changed {
        game: u32,
        kept: Sig,
        found: Option<Sig>,
    },
    /// The files failed.
    #[error("the games file failed")]
    Failed,
    /// Memory ran out.
    #[error("out of memory")]
    Memory,
}

/// Why a draft does not take over a game.
#[derive(Clone, Copy, Debug, Drop, PartialEq, Eq, Error)]
pub enum DraftError {
    /// The games file would pass its limit.
    #[error("full file")]
    Full,
    /// Memory ran out.
    #[error("out of memory")]
    Memory,
}

/// Why a base is not saved.
#[derive(Clone, Copy, Debug, Drop, PartialEq, Eq, Error)]
pub enum SaveError {
    /// The files failed.
    #[error("cannot write the files of the base")]
    Failed,
    /// Memory ran out.
    #[error("out of memory")]
    Memory,
}

impl From<AllocError> for SaveError {
    ghost from_gives = { λ _ e. e ≡ saving.Memory };

    fn from(_refused: AllocError) -> SaveError {
        SaveError::Memory
    }
}

impl From<DeviceError> for SaveError {
    ghost from_gives = { λ error e. e ≡ save_error error };

    fn from(error: DeviceError) -> SaveError {
        match error {
            DeviceError::Failed => SaveError::Failed,
            DeviceError::Memory => SaveError::Memory,
        }
    }
}

impl From<AllocError> for DraftError {
    ghost from_gives = { λ _ e. e ≡ drafting.Memory };

    fn from(_refused: AllocError) -> DraftError {
        DraftError::Memory
    }
}

impl From<AllocError> for EditError {
    ghost from_gives = { λ _ e. e ≡ edit.Memory };

    fn from(_refused: AllocError) -> EditError {
        EditError::Memory
    }
}

impl From<EncodeError> for EditError {
    ghost from_gives = { λ error e. e ≡ unwritten_error error };

    fn from(error: EncodeError) -> EditError {
        match error {
            EncodeError::TooLong(len) => EditError::TooLong(len),
            EncodeError::Memory => EditError::Memory,
        }
    }
}

impl From<StoreError> for EditError {
    ghost from_gives = { λ error e. e ≡ unplaced_error error };

    fn from(error: StoreError) -> EditError {
        match error {
            StoreError::Full => EditError::Full(What::File),
            StoreError::Memory => EditError::Memory,
            StoreError::Failed => EditError::Failed,
        }
    }
}

impl From<DeviceError> for OpenError {
    ghost from_gives = { λ error e. e ≡ open_error error };

    fn from(error: DeviceError) -> OpenError {
        match error {
            DeviceError::Failed => OpenError::Failed,
            DeviceError::Memory => OpenError::Memory,
        }
    }
}

impl From<NamesError> for OpenError {
    ghost from_gives = { λ error e. e ≡ names_error error };

    fn from(error: NamesError) -> OpenError {
        match error {
            NamesError::Bad(fault) => OpenError::Bad(BaseFault::Names(fault)),
            NamesError::Memory => OpenError::Memory,
        }
    }
}

// Why a game is not given that has this signature, if its record is not read.
pub(crate) fn unread_error(game: u32, kept: Sig, error: DecodeError) -> EditError
    ensures error { result ≡ unread_error game kept error }
{
    match error {
        DecodeError::Bad(_) => EditError::Changed {
            game,
            kept,
            found: None,
        },
        DecodeError::Memory => EditError::Memory,
    }
}

impl From<AllocError> for OpenError {
    ghost from_gives = { λ _ e. e ≡ opening.Memory };

    fn from(_refused: AllocError) -> OpenError {
        OpenError::Memory
    }
}
