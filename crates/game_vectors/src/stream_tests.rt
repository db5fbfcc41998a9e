//! What the devices do with a stream that fails in mid-stream.
ghost use Rattle.std.specs.Prelude.{◌≤◌, IfOk};

use base_files::{DeviceError, Failed, Sink, Source};
use std::io;
use std::io::{Error, ErrorKind, Read, Write};
use std_devices::{StdSink, StdSource};

/// A stream that is interrupted once, moves two bytes, fails, moves none, wants memory, and moves none from then on.
#[derive(Drop)]
struct Flaky {
    calls: u32,
}

impl Flaky {
    fn answer(&mut self, room: usize) -> io::Result<usize>
        ensures { IfOk result (λ n. n ≤ room) }
    {
        self.calls = self.calls.saturating_add(1);
        match self.calls {
            1 => Err(Error::from(ErrorKind::Interrupted)),
            2 => Ok(room.min(2)),
            3 => Err(Error::from(ErrorKind::BrokenPipe)),
            5 => Err(Error::from(ErrorKind::OutOfMemory)),
            _ => Ok(0),
        }
    }
}

impl Read for Flaky {
    fn read(&mut self, buf: &mut [u8]) -> io::Result<usize> {
        self.answer(buf.len())
    }
}

impl Write for Flaky {
    fn write(&mut self, buf: &[u8]) -> io::Result<usize> {
        self.answer(buf.len())
    }

    fn flush(&mut self) -> io::Result<()> {
        Err(Error::from(ErrorKind::BrokenPipe))
    }
}

#[test]
fn a_reader_that_fails_in_mid_stream_is_a_source_that_fails(rt: HostRuntime) {
    let mut source = StdSource::new(Flaky { calls: 0 });
    let mut into = [0u8; 8];
    for (call, want) in [Ok(2), Err(Failed), Ok(0), Err(Failed)].iter().enumerate() {
        assert_eq!(rt; source.read(&mut into), *want, "at call {call}");
    }
}

#[test]
fn a_writer_that_fails_in_mid_stream_is_a_sink_that_fails(rt: HostRuntime) {
    let mut sink = StdSink::new(Flaky { calls: 0 });
    let fault = Err(DeviceError::Failed);
    for (call, want) in [Ok(2), fault, fault, Err(DeviceError::Memory), fault]
        .iter()
        .enumerate()
    {
        assert_eq!(rt; sink.write(b"abc"), *want, "at call {call}");
    }
    assert_eq!(rt; sink.flush(), Err(DeviceError::Failed));
}
