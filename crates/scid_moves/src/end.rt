//! How a run ends.
ghost use Rattle.std.specs.Prelude.{◌≡◌};
ghost use Rattle.scid_moves.specs.Ends.{exit_code_of, line_of, output_end};

use base_files::DeviceError;

/// How a run ends that is not done.
#[derive(Clone, Copy, Debug, PartialEq, Eq)]
pub enum End {
    /// There are words, and they are not those of the program.
    Usage,
    /// The input failed.
    ReadFault,
    /// The output failed.
    WriteFault,
    /// Memory ran out.
    Memory,
}

impl End {
    /// The exit code of the process, those of `scid_shell`. It is 0 if the run is done.
    pub fn exit_code(&self) -> u8
        ensures code { result ≡ exit_code_of self.now }
    {
        match self {
            End::Usage => 1,
            End::ReadFault => 3,
            End::WriteFault => 4,
            End::Memory => 8,
        }
    }

    /// The end that an error of the output is.
    pub fn of_output(error: DeviceError) -> End
        ensures end { result ≡ output_end error }
    {
        match error {
            DeviceError::Failed => End::WriteFault,
            DeviceError::Memory => End::Memory,
        }
    }

    /// The line on standard error.
    pub fn line(&self) -> &'static str
        ensures line { result.now ≡ line_of self.now }
    {
        match self {
            End::Usage => "usage: scid_moves",
            End::ReadFault => "read fault",
            End::WriteFault => "write fault",
            End::Memory => "out of memory",
        }
    }
}
