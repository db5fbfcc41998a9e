//! Why a text is no position, and why it is no move.
ghost use Rattle.std.specs.Prelude.{◌≡◌};
ghost use Rattle.chess_text.specs.Fault.{fault_of};

use chess_laws::PlaceFault;
use thiserror::Error;

/// Why a text is no position in Forsyth-Edwards Notation.
#[derive(Clone, Copy, Debug, PartialEq, Eq, Error)]
pub enum FenFault {
    /// The field with this number, counted from 1, is malformed; a seventh field is `Field(7)`.
    #[error("field {0} is malformed")]
    Field(u8),
    /// A side has not exactly one king.
    #[error("a side has not exactly one king")]
    Kings,
    /// A pawn stands on the first or the last rank.
    #[error("a pawn stands on the first or the last rank")]
    Pawns,
    /// A side has more than 16 men.
    #[error("a side has more than 16 men")]
    TooMany,
    /// The side that is not to move is in check.
    #[error("the side that is not to move is in check")]
    InCheck,
}

impl From<PlaceFault> for FenFault {
    ghost from_gives = { λ place fault. fault ≡ fault_of place };

    fn from(place: PlaceFault) -> FenFault
        ensures { result ≡ fault_of place }
    {
        match place {
            PlaceFault::Kings => FenFault::Kings,
            PlaceFault::Pawns => FenFault::Pawns,
            PlaceFault::TooMany => FenFault::TooMany,
            PlaceFault::InCheck => FenFault::InCheck,
            PlaceFault::EnPassant => FenFault::Field(4),
        }
    }
}

/// Why a text is no move in Standard Algebraic Notation.
#[derive(Clone, Copy, Debug, PartialEq, Eq, Error)]
pub enum SanFault {
    /// The text is not of the form of a move.
    #[error("not the text of a move")]
    Shape,
    /// No legal move is of the text's form.
    #[error("no legal move")]
    NoMove,
    /// More than one legal move is of the text's form.
    #[error("ambiguous move")]
    Two,
}
