//! Why a command ends a session early.
ghost use Rattle.std.specs.Prelude.{◌≡◌};
ghost use Rattle.shell_state.specs.Ends.{HasGame, halt_of};

use base_core::EditError;
use base_files::{Files, Stop};
use sig_index::{FetchError, Sig};
use std::alloc::{AllocError, AllocFailed};

/// How a command ends if a game that is there is not read.
pub fn halt_of(error: EditError) -> Halt
    requires there { HasGame error }
    ensures halt { result ≡ halt_of error }
{
    match error {
        EditError::Failed => Halt::Device(Stop::Files),
        EditError::Memory => Halt::Device(Stop::Memory),
        EditError::Changed { game, kept, found } => Halt::Changed { game, kept, found },
        EditError::NoGame(_) | EditError::TooLong(_) | EditError::Full(_) => unreachable!(),
    }
}

/// Why a command was broken off.
#[derive(Clone, Copy, Debug, PartialEq, Eq)]
pub enum Halt {
    /// A device failed, or memory ran out.
    Device(Stop),
    /// The record of this game has another signature than the kept one, or is none.
    Changed {
        game: u32,
        kept: Sig,
        found: Option<Sig>,
    },
}

impl From<Stop> for Halt {
    ghost use Rattle.std.specs.Prelude.{◌≡◌};
    ghost use Rattle.shell_state.specs.declared.halt.Halt.TheVariants as halt;

    ghost from_gives = { λ stop e. e ≡ halt.Device stop };

    fn from(stop: Stop) -> Halt {
        Halt::Device(stop)
    }
}

impl From<FetchError> for Halt {
    ghost use Rattle.std.specs.Prelude.{◌≡◌};
    ghost use Rattle.shell_state.specs.Ends.{halt_of_fetch};

    ghost from_gives = { λ error e. e ≡ halt_of_fetch error };

    fn from(error: FetchError) -> Halt {
        match error {
            FetchError::Failed => Halt::Device(Stop::Files),
            FetchError::Changed { game, kept, found } => Halt::Changed { game, kept, found },
        }
    }
}

impl From<AllocError> for Halt {
    ghost use Rattle.std.specs.Prelude.{◌≡◌};
    ghost use Rattle.base_files.specs.declared.faults.Stop.TheVariants as stop;
    ghost use Rattle.shell_state.specs.declared.halt.Halt.TheVariants as halt;

    ghost from_gives = { λ _ e. e ≡ halt.Device stop.Memory };

    fn from(_refused: AllocError) -> Halt {
        Halt::Device(Stop::Memory)
    }
}

impl<T: Drop> From<AllocFailed<T>> for Halt {
    ghost use Rattle.std.specs.Prelude.{◌≡◌};
    ghost use Rattle.base_files.specs.declared.faults.Stop.TheVariants as stop;
    ghost use Rattle.shell_state.specs.declared.halt.Halt.TheVariants as halt;

    ghost from_gives = { λ _ e. e ≡ halt.Device stop.Memory };

    fn from(_refused: AllocFailed<T>) -> Halt {
        Halt::Device(Stop::Memory)
    }
}
