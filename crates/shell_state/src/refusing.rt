//! Why a game is not placed.
ghost use Rattle.std.specs.Prelude.{◌≡◌, Ok, IfOk, IfErr};
ghost use Rattle.shell_state.specs.Ends.{EndsAs, IsThere, refused_edit, refused_line};
ghost use Rattle.shell_state.specs.Refusing.{refusal_line, refusal_words};

use crate::halt::{Halt, halt_of};
use crate::lines::error_line;
use base_core::{EditError, What};
use std::alloc::{AllocError, Global};

/// Why a game is not placed.
#[derive(Clone, Copy, Debug, PartialEq, Eq)]
pub enum Refusal {
    /// The position index has no room for it.
    FullIndex,
    /// Its record is longer than a record may be.
    TooLong,
    /// This would be full.
    Full(What),
}

impl Refusal {
    /// The words for it in an error line.
    pub fn words(self) -> &'static [u8]
        ensures words { result.now ≡ refusal_words self }
    {
        match self {
            Refusal::FullIndex => b"full index",
            Refusal::TooLong => b"record too long",
            Refusal::Full(What::Games) => b"full games",
            Refusal::Full(What::Players) => b"full players",
            Refusal::Full(What::Events) => b"full events",
            Refusal::Full(What::Sites) => b"full sites",
            Refusal::Full(What::Rounds) => b"full rounds",
            Refusal::Full(What::File) => b"full file",
        }
    }
}

/// The error line for it.
pub fn refusal_line(alloc: Global, why: Refusal) -> Result<Vec<u8>, AllocError>
    ensures line { IfOk result (λ line. line.items ≡ refusal_line why) }
{
    error_line(alloc, why.words())
}

/// Why a game that is there is not edited, or how the command ends.
pub(crate) fn refused(error: EditError) -> Result<Refusal, Halt>
    requires there { IsThere error }
    ensures refused { result ≡ refused_edit error }
{
    match error {
        EditError::TooLong(_) => Ok(Refusal::TooLong),
        EditError::Full(what) => Ok(Refusal::Full(what)),
        other => Err(halt_of(other)),
    }
}

/// The error line of such a game, or how the command ends.
pub fn refused_line(alloc: Global, error: EditError) -> Result<Vec<u8>, Halt>
    requires there { IsThere error }
    ensures line { IfOk result (λ line. refused_line error ≡ Ok line.items) }
    ensures halt { IfErr result (EndsAs (refused_line error)) }
{
    match refused(error) {
        Ok(why) => Ok(refusal_line(alloc, why)?),
        Err(halt) => Err(halt),
    }
}
