//! Why a line is no command.
use std::alloc::{AllocError, AllocFailed};
use thiserror::Error;

/// What is wrong with a line: the first fault, in the order of the line.
#[derive(Clone, Copy, Debug, Drop, PartialEq, Eq, Hash, Error)]
pub enum ScriptFault {
    /// The line has more than 65,536 bytes and does not begin with `#`.
    #[error("line too long")]
    TooLong,
    /// The first word is no command, or a quoted part in it is not closed.
    #[error("unknown command")]
    Unknown,
    /// The argument of this number, counted from 1, is the first one that is missing, not closed, or not of its form.
    #[error("argument {0}")]
    Argument(u32),
    /// A word follows the last argument.
    #[error("extra argument")]
    Extra,
}

/// Why `read_command` gives no command.
#[derive(Clone, Copy, Debug, Drop, PartialEq, Eq, Error)]
pub enum CommandError {
    #[error("{0}")]
    Bad(ScriptFault),
    #[error("out of memory")]
    Memory,
}

impl From<ScriptFault> for CommandError {
    ghost use Rattle.std.specs.Prelude.{◌≡◌};
    ghost use Rattle.script_text.specs.declared.fault.CommandError.TheVariants.{Bad};

    ghost from_gives = { λ fault e. e ≡ Bad fault };

    fn from(fault: ScriptFault) -> Self {
        CommandError::Bad(fault)
    }
}

impl From<AllocError> for CommandError {
    ghost use Rattle.std.specs.Prelude.{◌≡◌};
    ghost use Rattle.script_text.specs.declared.fault.CommandError.TheVariants.{Memory};

    ghost from_gives = { λ _ e. e ≡ Memory };

    fn from(_: AllocError) -> Self {
        CommandError::Memory
    }
}

impl<T: Drop> From<AllocFailed<T>> for CommandError {
    ghost use Rattle.std.specs.Prelude.{◌≡◌};
    ghost use Rattle.script_text.specs.declared.fault.CommandError.TheVariants.{Memory};

    ghost from_gives = { λ _ e. e ≡ Memory };

    fn from(_: AllocFailed<T>) -> Self {
        CommandError::Memory
    }
}
