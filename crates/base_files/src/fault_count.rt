//! The count of faults of an adapter.
ghost use Rattle.std.specs.Prelude.{◌≡◌, ◌≤◌, ◌↔◌};
ghost use Rattle.base_files.specs.Counters.{raised};
ghost use Rattle.base_files.specs.Causes.{after_error};

use crate::faults::{DeviceError, Failed};
use std::io::ErrorKind;
use std::marker::Model;

/// How many faults were counted. The count stands still at the greatest u64.
#[derive(Drop)]
pub struct FaultCount {
    count: u64,
}

impl Model for FaultCount {
    ghost use Rattle.std.specs.Prelude.{ℕ};

    ghost Value = { ℕ };

    ghost view = { λ faults. faults.count };
}

impl FaultCount {
    /// No fault was counted yet.
    pub fn new() -> FaultCount
        ensures { result ≡ 0 }
    {
        FaultCount { count: 0 }
    }

    /// Counts a fault.
    pub fn fault(&mut self) -> Failed
        ensures counted { self.new ≡ raised self.old 1 }
        ensures counts { self.old ≤ self.new }
    {
        self.count = self.count.saturating_add(1);
        Failed
    }

    /// The error of this kind: refused memory is no fault, every other kind is one, and is counted.
    pub fn error(&mut self, kind: ErrorKind) -> DeviceError
        ensures kind { (result ≡ DeviceError.Memory) ↔ (kind ≡ ErrorKind.OutOfMemory) }
        ensures counted { self.new ≡ after_error result self.old }
        ensures counts { self.old ≤ self.new }
    {
        if kind == ErrorKind::OutOfMemory {
            return DeviceError::Memory;
        }
        DeviceError::from(self.fault())
    }
}
