//! What is told of a base that is mended.
ghost use Rattle.std.specs.Prelude.{◌≡◌, ◌≤◌, ℕ, List, Option, IfErr, OnOk, OnErr};
ghost use Rattle.base_files.specs.Causes.{HasCause};
ghost use Rattle.mend_base.specs.Notes.{with_note};
ghost use Rattle.mend_base.specs.declared.report.Note.{Note as PlainNote};

use base_core::BaseFault;
use base_files::DeviceError;
use index_entry::IndexFault;
use std::fmt;

/// What is told of the old base, or of a game of it that does not come over as it is.
#[derive(Clone, Copy, Debug, Drop, PartialEq, Eq)]
pub enum Note {
    /// The header of the index has this fault. Its entries are mended all the same.
    Tried(IndexFault),
    /// No header of the index is found, for this fault, and so no entry.
    Lost(IndexFault),
    /// The header counts so many games, and the index has so many whole entries.
    Counted {
        counted: u32,
        found: u32,
    },
    /// This game does not come over. This is the first fault for which it does not.
    LeftOut {
        game: u32,
        fault: BaseFault,
    },
    /// This game comes over without a field that stands for nothing, or with `?` for a name. This is the first fault.
    Changed {
        game: u32,
        fault: BaseFault,
    },
    /// This game comes over as a record alone: the index has no entry of it. The record begins at this byte of the games file.
    Took {
        game: u32,
        place: u32,
    },
    /// The games from the first to the last of these do not come over: the index has no entries for them.
    NotThere {
        first: u32,
        last: u32,
        fault: BaseFault,
    },
}

impl fmt::Display for Note {
    fn fmt<W: fmt::Write>(&self, f: &mut fmt::Formatter<W>) -> fmt::Result {
        match self {
            Note::Tried(fault) => write!(f, "index file: {fault}; its entries are tried"),
            Note::Lost(fault) => write!(f, "index file: {fault}; no entry is known"),
            Note::Counted { counted, found } => write!(f, "counted {counted}, found {found}"),
            Note::LeftOut { game, fault } => write!(f, "left out {game}: {fault}"),
            Note::Changed { game, fault } => write!(f, "changed {game}: {fault}"),
            Note::Took { game, place } => {
                write!(
                    f,
                    "took {game}: games file: the record at byte {place}, which has no entry"
                )
            }
            Note::NotThere { first, last, fault } if first == last => {
                write!(f, "left out {first}: {fault}")
            }
            Note::NotThere { first, last, fault } => {
                write!(f, "left out {first} to {last}: {fault}")
            }
        }
    }
}

/// What the notes are told to.
pub trait Report {
    // The notes that it was told, where it tells them.
    ghost told: { Self → Option (List PlainNote) };

    // How many faults it has counted.
    ghost faults: { Self → ℕ };

    /// Takes a note. After an error it was not taken.
    fn tell(&mut self, note: &Note) -> Result<(), DeviceError>
        ensures told { OnOk result (told self.new ≡ with_note (told self.old) note.now) }
        ensures not_told { OnErr result (told self.new ≡ told self.old) }
        ensures counts { faults self.old ≤ faults self.new }
        ensures cause { IfErr result (λ e. HasCause e (faults self.old) (faults self.new)) };
}
