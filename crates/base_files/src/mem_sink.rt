//! A sink of bytes in memory.
ghost use Rattle.std.specs.Prelude.{◌≡◌, ◌+◌, ◌<◌, ◌≤◌, ◌++◌, length, take, Some, IfOk, IfErr, OnErr, IsErrOf, MatchResult};
ghost use Rattle.base_files.specs.Counters.{Rose};
ghost use Rattle.base_files.specs.Told.{adds};
ghost use Rattle.base_files.specs.Causes.{HasCause};
ghost use Rattle.base_files.specs.Planned.{Calls, Served, Refused};
ghost use Rattle.base_files.specs.Trays.{Tray, taken_of, after_taking};

use crate::faults::DeviceError;
use crate::plan::Plan;
use crate::sink::Sink;
use std::marker::Model;

/// A sink that keeps the bytes that it takes.
#[derive(Drop)]
pub struct MemSink {
    taken: Vec<u8>,
    most: usize,
    plan: Plan,
}

impl Model for MemSink {
    ghost use Rattle.std.specs.Prelude.{◌≤◌};
    ghost use Rattle.base_files.specs.Trays.{Tray};

    ghost Value = { Tray };

    ghost view = { λ sink. record { taken = sink.taken.items; most = sink.most; calls = sink.plan } };

    ghost invariant = { λ sink. 1 ≤ sink.most };
}

impl MemSink {
    /// Begins with these bytes, and takes at most `piece` bytes in a call, which is at least 1.
    /// The calls of these numbers fail, counted from 0.
    pub fn new(taken: Vec<u8>, piece: u32, fails: Vec<u64>) -> MemSink
        requires { 1 ≤ piece }
        ensures { result ≡ record { taken = taken.items; most = piece; calls = record { planned = fails.items; made = 0; faults = 0 } } }
    {
        MemSink {
            taken,
            most: piece as usize,
            plan: Plan::new(fails),
        }
    }

    /// The bytes taken, those with which it began first.
    pub fn taken(&self) -> &[u8]
        ensures { result.now ≡ self.now.taken }
    {
        self.taken.as_slice()
    }
}

impl Sink for MemSink {
    ghost taken = { λ sink. Some sink.taken };

    ghost faults = { λ sink. sink.calls.faults };

    fn write(&mut self, piece: &[u8]) -> Result<usize, DeviceError>
        requires { 0 < length piece.now }
        ensures some { IfOk result (λ n. 0 < n) }
        ensures fits { IfOk result (λ n. n ≤ length piece.now) }
        ensures added { IfOk result (λ n. Some self.new.taken ≡ adds (Some self.old.taken) (take n piece.now)) }
        ensures none_added { OnErr result (Some self.new.taken ≡ Some self.old.taken) }
        ensures counts { self.old.calls.faults ≤ self.new.calls.faults }
        ensures cause { IfErr result (λ e. HasCause e self.old.calls.faults self.new.calls.faults) }
        ensures memory { IsErrOf result DeviceError.Memory → self.new.calls.faults ≡ self.old.calls.faults }

        // More than every sink promises: how many bytes are taken, which calls fail, and what each leaves.
        ensures many { IfOk result (λ n. n ≡ taken_of self.old piece.now) }
        ensures served { IfOk result (λ _. self.new ≡ after_taking self.old piece.now) }
        ensures most { self.new.most ≡ self.old.most }
        ensures planned { MatchResult result (λ _. Served self.old.calls self.new.calls) (λ e. Refused e self.old.calls self.new.calls) }
    {
        self.plan.begin()?;
        let n = self.most.min(piece.len());
        self.taken.extend_from_slice(&piece[..n])?;
        Ok(n)
    }
}
