//! What can go wrong with an object of the outside.
ghost use Rattle.std.specs.Prelude.{◌≡◌};
ghost use Rattle.base_files.specs.declared.faults.DeviceError.TheVariants as device;
ghost use Rattle.base_files.specs.Causes.{input_stop, output_stop, files_stop};

use std::alloc::{AllocError, AllocFailed};
use thiserror::Error;

/// A fault of the object, which its count of faults has counted.
#[derive(Clone, Copy, Debug, PartialEq, Eq, Error)]
#[error("the device failed")]
pub struct Failed;

/// Why a device that may take memory did not do what it was asked.
#[derive(Clone, Copy, Debug, PartialEq, Eq, Error)]
pub enum DeviceError {
    /// A fault of the object, which its count of faults has counted.
    #[error("the device failed")]
    Failed,
    /// Memory ran out. No fault is counted.
    #[error("out of memory")]
    Memory,
}

impl From<Failed> for DeviceError {
    ghost from_gives = { λ _ e. e ≡ device.Failed };

    fn from(_fault: Failed) -> DeviceError {
        DeviceError::Failed
    }
}

impl From<AllocError> for DeviceError {
    ghost from_gives = { λ _ e. e ≡ device.Memory };

    fn from(_refused: AllocError) -> DeviceError {
        DeviceError::Memory
    }
}

impl<T: Drop> From<AllocFailed<T>> for DeviceError {
    ghost from_gives = { λ _ e. e ≡ device.Memory };

    fn from(_refused: AllocFailed<T>) -> DeviceError {
        DeviceError::Memory
    }
}

/// Why a run over the three devices ended early.
#[derive(Clone, Copy, Debug, PartialEq, Eq, Error)]
pub enum Stop {
    /// The input failed.
    #[error("cannot read the input")]
    Read,
    /// The output failed.
    #[error("cannot write the output")]
    Write,
    /// The files of the base failed.
    #[error("cannot use the files of the base")]
    Files,
    /// Memory ran out.
    #[error("out of memory")]
    Memory,
}

impl DeviceError {
    /// The early end that this error is, if it comes from the input.
    pub fn of_input(self) -> Stop
        ensures { result ≡ input_stop self }
    {
        match self {
            DeviceError::Failed => Stop::Read,
            DeviceError::Memory => Stop::Memory,
        }
    }

    /// The early end that this error is, if it comes from the output.
    pub fn of_output(self) -> Stop
        ensures { result ≡ output_stop self }
    {
        match self {
            DeviceError::Failed => Stop::Write,
            DeviceError::Memory => Stop::Memory,
        }
    }

    /// The early end that this error is, if it comes from the files.
    pub fn of_files(self) -> Stop
        ensures { result ≡ files_stop self }
    {
        match self {
            DeviceError::Failed => Stop::Files,
            DeviceError::Memory => Stop::Memory,
        }
    }
}
