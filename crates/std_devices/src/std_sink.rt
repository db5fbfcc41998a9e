//! A sink over a writer of the standard library.
ghost use Rattle.std.specs.Prelude.{◌≡◌, ◌<◌, ◌≤◌, length, None, IfOk, IfErr, MatchResult};
ghost use Rattle.base_files.specs.Causes.{HasCause, after_error};
ghost use Rattle.std_devices.specs.Meters.{OutputMeter};

use base_files::{DeviceError, FaultCount, Sink};
use std::io;
use std::io::{ErrorKind, Write};
use std::marker::Model;

/// A sink over a writer. It tells nothing of the bytes.
#[derive(Drop)]
pub struct StdSink<W> {
    writer: W,
    faults: FaultCount,
}

impl<W> Model for StdSink<W> {
    ghost use Rattle.std_devices.specs.Meters.{OutputMeter};

    ghost Value = { OutputMeter };

    ghost view = { λ sink. record { faults = sink.faults } };
}

impl<W> StdSink<W> {
    /// A sink over this writer, which counted no fault yet.
    pub fn new(writer: W) -> StdSink<W>
        ensures { result ≡ record { faults = 0 } }
    {
        StdSink {
            writer,
            faults: FaultCount::new(),
        }
    }
}

impl<W: Write> StdSink<W> {
    /// Hands on the bytes that the writer holds back.
    pub fn flush(&mut self) -> Result<(), DeviceError>
        ensures counts { self.old.faults ≤ self.new.faults }
        ensures cause { IfErr result (λ e. HasCause e self.old.faults self.new.faults) }
        ensures counted { MatchResult result (λ _. self.new.faults ≡ self.old.faults) (λ e. self.new.faults ≡ after_error e self.old.faults) }
    {
        match self.writer.flush() {
            Ok(()) => Ok(()),
            Err(error) => Err(self.faults.error(error.kind())),
        }
    }
}

impl<W: Write> Sink for StdSink<W> {
    ghost taken = { λ _. None };

    ghost faults = { λ sink. sink.faults };

    fn write(&mut self, piece: &[u8]) -> Result<usize, DeviceError>
        requires { 0 < length piece.now }
        ensures some { IfOk result (λ n. 0 < n) }
        ensures fits { IfOk result (λ n. n ≤ length piece.now) }
        ensures counts { self.old.faults ≤ self.new.faults }
        ensures cause { IfErr result (λ e. HasCause e self.old.faults self.new.faults) }

        // More than every sink promises: a fault is counted once, and nothing else is.
        ensures counted { MatchResult result (λ _. self.new.faults ≡ self.old.faults) (λ e. self.new.faults ≡ after_error e self.old.faults) }
    {
        match write_uninterrupted(&mut self.writer, piece) {
            Ok(0) => Err(self.faults.error(ErrorKind::WriteZero)),
            Ok(n) => Ok(n),
            Err(error) => Err(self.faults.error(error.kind())),
        }
    }
}

// One write, tried again while a signal interrupts it.
fn write_uninterrupted<W: Write>(writer: &mut W, piece: &[u8]) -> io::Result<usize>
    ensures { IfOk result (λ n. n ≤ length piece.now) }
{
    for _ in 0..u64::MAX {
        match writer.write(piece) {
            Err(error) if error.kind() == ErrorKind::Interrupted => {}
            answer => return answer,
        }
    }
    Err(io::Error::from(ErrorKind::Interrupted))
}
