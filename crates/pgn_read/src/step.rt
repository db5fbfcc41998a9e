//! What a token does to a game that is read.
ghost use Rattle.std.specs.Prelude.{◌≡◌};
ghost use Rattle.pgn_read.specs.declared.step.Untaken.TheVariants as untaken;

use crate::item::GameWhat;
use game_tree::Outcome;
use std::alloc::AllocError;

/// How a game ends.
#[derive(Clone, Copy, Debug)]
pub(crate) enum End {
    /// Behind the token, which is its end mark.
    Behind(Outcome),
    /// Before the token.
    Before,
    /// By a token that is faulty.
    Faulty(GameWhat),
}

/// What a token does.
#[derive(Clone, Copy, Debug)]
pub(crate) enum Step {
    /// Reading goes on in the same game.
    GoesOn,
    Ends(End),
}

/// Why no token was taken.
#[derive(Clone, Copy, Debug)]
pub(crate) enum Untaken {
    /// The bytes that were read do not tell the token.
    Untold,
    /// Memory ran out.
    Memory,
}

impl From<AllocError> for Untaken {
    ghost from_gives = { λ _ e. e ≡ untaken.Memory };

    fn from(_refused: AllocError) -> Untaken {
        Untaken::Memory
    }
}
