//! Why a record is not placed.
ghost use Rattle.std.specs.Prelude.{◌≡◌};
ghost use Rattle.base_files.specs.declared.faults.DeviceError.{DeviceError};
ghost use Rattle.block_store.specs.Placing.{store_error};

use base_files::DeviceError;
use thiserror::Error;

/// Why a record is not placed.
#[derive(Clone, Copy, Debug, PartialEq, Eq, Error)]
pub enum StoreError {
    /// The games file would pass 4,294,967,295 bytes.
    #[error("the games file is full")]
    Full,
    /// Memory ran out. Nothing was done.
    #[error("out of memory")]
    Memory,
    /// The files failed. The store is not to be used again.
    #[error("cannot write the games file")]
    Failed,
}

impl From<DeviceError> for StoreError {
    ghost from_gives = { λ error e. e ≡ store_error error };

    fn from(error: DeviceError) -> StoreError {
        match error {
            DeviceError::Failed => StoreError::Failed,
            DeviceError::Memory => StoreError::Memory,
        }
    }
}
