//! A source over a reader of the standard library.
ghost use Rattle.std.specs.Prelude.{◌≡◌, ◌+◌, ◌<◌, ◌≤◌, [], length, None, IfOk, IsErr, OnErr, MatchResult};
ghost use Rattle.base_files.specs.Counters.{LAST, Rose, raised};
ghost use Rattle.std_devices.specs.Meters.{InputMeter};

use base_files::{Failed, FaultCount, Source};
use std::io;
use std::io::{ErrorKind, Read};
use std::marker::Model;

/// A source over a reader. It tells nothing of the bytes.
/// After 18,446,744,073,709,551,615 bytes each read is a fault.
#[derive(Drop)]
pub struct StdSource<R> {
    reader: R,
    budget: u64,
    faults: FaultCount,
}

impl<R> Model for StdSource<R> {
    ghost use Rattle.std_devices.specs.Meters.{InputMeter};

    ghost Value = { InputMeter };

    ghost view = { λ source. record { budget = source.budget; faults = source.faults } };
}

impl<R> StdSource<R> {
    /// A source over this reader, which counted no fault yet.
    pub fn new(reader: R) -> StdSource<R>
        ensures { result ≡ record { budget = LAST; faults = 0 } }
    {
        StdSource {
            reader,
            budget: u64::MAX,
            faults: FaultCount::new(),
        }
    }
}

impl<R: Read> Source for StdSource<R> {
    ghost left = { λ _. None };

    ghost budget = { λ source. source.budget };

    ghost faults = { λ source. source.faults };

    ghost origin = { λ _. [] };

    fn read(&mut self, into: &mut [u8]) -> Result<usize, Failed>
        requires { 0 < length into.old }
        ensures fits { IfOk result (λ n. n ≤ length into.old) }
        ensures spent { IfOk result (λ n. self.new.budget + n ≡ self.old.budget) }
        ensures none_spent { OnErr result (self.new.budget ≡ self.old.budget) }
        ensures counts { self.old.faults ≤ self.new.faults }
        ensures cause { OnErr result (Rose self.old.faults self.new.faults) }

        // More than every source promises: a fault is counted once, nothing else is, and a spent budget is a fault.
        ensures counted { MatchResult result (λ _. self.new.faults ≡ self.old.faults) (λ _. self.new.faults ≡ raised self.old.faults 1) }
        ensures spent_up { self.old.budget ≡ 0 → IsErr result }
    {
        if self.budget == 0 {
            return Err(self.faults.fault());
        }
        let most = into.len();
        let asked = if self.budget < most as u64 {
            self.budget as usize
        } else {
            most
        };
        match read_uninterrupted(&mut self.reader, &mut into[..asked]) {
            Ok(n) => {
                self.budget -= n as u64;
                Ok(n)
            }
            Err(_) => Err(self.faults.fault()),
        }
    }
}

// One read, tried again while a signal interrupts it.
fn read_uninterrupted<R: Read>(reader: &mut R, into: &mut [u8]) -> io::Result<usize>
    ensures { IfOk result (λ n. n ≤ length into.old) }
{
    for _ in 0..u64::MAX {
        match reader.read(into) {
            Err(error) if error.kind() == ErrorKind::Interrupted => {}
            answer => return answer,
        }
    }
    Err(io::Error::from(ErrorKind::Interrupted))
}
