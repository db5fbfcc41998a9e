//! Devices whose work is told on the progress line.
ghost use Rattle.std.specs.Prelude.{◌≡◌};

use crate::progress::ProgressLine;
use base_files::{DeviceError, Failed, Files, Part, Sink, Source};
use std::alloc::Global;

/// A device whose work is told on the progress line. Each call of it is one of the device, with the same outcome, and what it shows is
/// what the device shows.
#[derive(Drop)]
pub struct Watched<'p, D> {
    device: D,
    line: &'p ProgressLine<'p>,
}

impl<'p, D> Watched<'p, D> {
    /// This device, with this line.
    pub fn new(device: D, line: &'p ProgressLine<'p>) -> Watched<'p, D>
        ensures same { result.device ≡ device }
    {
        Watched { device, line }
    }

    /// The device.
    pub fn into_device(self) -> D
        ensures same { result ≡ self.entry.device }
    {
        self.device
    }
}

impl<'p, S: Source> Source for Watched<'p, S> {
    ghost left = { λ watched. S.left watched.device };

    ghost budget = { λ watched. S.budget watched.device };

    ghost faults = { λ watched. S.faults watched.device };

    ghost origin = { λ watched. S.origin watched.device };

    fn read(&mut self, into: &mut [u8]) -> Result<usize, Failed> {
        self.line.before_input();
        let n = self.device.read(into)?;
        self.line.taken(n);
        Ok(n)
    }
}

impl<'p, K: Sink> Sink for Watched<'p, K> {
    ghost taken = { λ watched. K.taken watched.device };

    ghost faults = { λ watched. K.faults watched.device };

    fn write(&mut self, piece: &[u8]) -> Result<usize, DeviceError> {
        self.line.before_text();
        self.device.write(piece)
    }
}

impl<'p, F: Files> Files for Watched<'p, F> {
    ghost seen = { λ watched. F.seen watched.device };

    ghost asked = { λ watched. F.asked watched.device };

    ghost faults = { λ watched. F.faults watched.device };

    fn choose(&mut self, name: &str, create: bool) -> Result<(), DeviceError> {
        self.device.choose(name, create)
    }

    fn load(&mut self, alloc: Global, part: Part) -> Result<Vec<u8>, DeviceError> {
        let bytes = self.device.load(alloc, part)?;
        if part == Part::Index {
            self.line.loaded(bytes.as_slice());
        }
        Ok(bytes)
    }

    fn games_len(&mut self) -> Result<u64, Failed> {
        let len = self.device.games_len()?;
        self.line.measured(len);
        Ok(len)
    }

    fn read_games(&mut self, offset: u64, len: u32, into: &mut [u8]) -> Result<(), Failed> {
        self.line.read(offset);
        self.device.read_games(offset, len, into)
    }

    fn append_games(&mut self, pad: u32, bytes: &[u8]) -> Result<(), DeviceError> {
        self.line.added(bytes.len());
        self.device.append_games(pad, bytes)
    }

    fn replace(&mut self, part: Part, bytes: &[u8]) -> Result<(), DeviceError> {
        self.line.saving();
        self.device.replace(part, bytes)
    }

    fn begin_new(&mut self) -> Result<(), DeviceError> {
        self.line.begun();
        self.device.begin_new()
    }

    fn append_new(&mut self, pad: u32, bytes: &[u8]) -> Result<(), DeviceError> {
        self.line.copied();
        self.device.append_new(pad, bytes)
    }

    fn commit_new(&mut self, names: &[u8], index: &[u8]) -> Result<(), DeviceError> {
        self.line.saving();
        self.device.commit_new(names, index)
    }
}
