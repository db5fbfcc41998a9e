//! Text that waits until it is written, and devices that are asked behind it.
ghost use Rattle.std.specs.Prelude.{◌≡◌, ◌≤◌, IfOk, length};

use base_files::{DeviceError, Failed, Files, Part};
use std::alloc::Global;
use std::cell::{Cell, RefCell};
use std::io;
use std::io::{BufWriter, ErrorKind, Read, Write};

/// How many bytes of text wait at most.
const ROOM: usize = 32_768;

/// An output whose text waits: it is handed on if it fills its room, and before a device is asked that stands behind it (`AfterText`).
///
/// Once a text could not be handed on, each later write fails as that did.
#[derive(Drop)]
pub struct TextOut<W: Write + Drop> {
    writer: RefCell<BufWriter<W>>,
    // Why a text could not be handed on.
    failed: Cell<Option<ErrorKind>>,
    // Whether the input was not read on for that.
    unread: Cell<bool>,
}

impl<W: Write + Drop> TextOut<W> {
    /// An output to this writer, on which 32,768 bytes wait at most.
    pub fn new(alloc: Global, writer: W) -> io::Result<TextOut<W>> {
        TextOut::with_room(alloc, writer, ROOM)
    }

    /// An output to a terminal: no text waits.
    pub fn at_once(alloc: Global, writer: W) -> io::Result<TextOut<W>> {
        TextOut::with_room(alloc, writer, 0)
    }

    fn with_room(alloc: Global, writer: W, room: usize) -> io::Result<TextOut<W>> {
        Ok(TextOut {
            writer: RefCell::new(BufWriter::with_capacity(alloc, room, writer)?),
            failed: Cell::new(None),
            unread: Cell::new(false),
        })
    }

    /// Hands on the text that waits.
    pub fn hand_on(&self) -> io::Result<()> {
        self.still_whole()?;
        let outcome = match self.writer.try_borrow_mut() {
            Ok(mut writer) => writer.flush(),
            Err(_) => Err(io::Error::from(ErrorKind::ResourceBusy)),
        };
        self.keep_fault(&outcome);
        outcome
    }

    /// Whether the input was not read on, since the text before it could not be handed on.
    pub fn is_unread(&self) -> bool {
        self.unread.get()
    }

    // Takes the front of a piece of text, and says how many bytes.
    fn take(&self, piece: &[u8]) -> io::Result<usize>
        ensures bound { IfOk result (λ n. n ≤ length piece.now) }
    {
        self.still_whole()?;
        let outcome = match self.writer.try_borrow_mut() {
            Ok(mut writer) => writer.write(piece),
            Err(_) => Err(io::Error::from(ErrorKind::ResourceBusy)),
        };
        self.keep_fault(&outcome);
        outcome
    }

    // The fault of an earlier text.
    fn still_whole(&self) -> io::Result<()> {
        match self.failed.get() {
            Some(kind) => Err(io::Error::from(kind)),
            None => Ok(()),
        }
    }

    // Keeps why a text was not handed on. An interrupted write is tried again.
    fn keep_fault<T>(&self, outcome: &io::Result<T>) {
        if let Err(error) = outcome {
            if error.kind() != ErrorKind::Interrupted {
                self.failed.set(Some(error.kind()));
            }
        }
    }
}

impl<'t, W: Write + Drop> Write for &'t TextOut<W> {
    fn write(&mut self, piece: &[u8]) -> io::Result<usize> {
        self.take(piece)
    }

    fn flush(&mut self) -> io::Result<()> {
        self.hand_on()
    }
}

/// A device that is asked behind the text. Each call of it is one of the device, with the same outcome, and what it shows is what the
/// device shows.
///
/// Of a reader, the text is handed on before more is read, and if that fails nothing is read. Of the files of a base, it is handed on
/// before files are opened or new ones take their place, whether that fails or not: so what is said then on standard error stands behind it.
#[derive(Drop)]
pub struct AfterText<'t, D, W: Write + Drop> {
    device: D,
    text: &'t TextOut<W>,
}

impl<'t, D, W: Write + Drop> AfterText<'t, D, W> {
    /// This device, behind this text.
    pub fn new(device: D, text: &'t TextOut<W>) -> AfterText<'t, D, W>
        ensures same { result.device ≡ device }
    {
        AfterText { device, text }
    }

    /// The device.
    pub fn into_device(self) -> D
        ensures same { result ≡ self.entry.device }
    {
        self.device
    }

    // Hands the text on. A fault of that is one of the next text.
    fn hand_on(&self) {
        let _ = self.text.hand_on();
    }
}

impl<'t, R: Read, W: Write + Drop> Read for AfterText<'t, R, W> {
    fn read(&mut self, into: &mut [u8]) -> io::Result<usize> {
        if let Err(error) = self.text.hand_on() {
            self.text.unread.set(true);
            return Err(error);
        }
        self.device.read(into)
    }
}

impl<'t, F: Files, W: Write + Drop> Files for AfterText<'t, F, W> {
    ghost seen = { λ files. F.seen files.device };

    ghost asked = { λ files. F.asked files.device };

    ghost faults = { λ files. F.faults files.device };

    fn choose(&mut self, name: &str, create: bool) -> Result<(), DeviceError> {
        self.hand_on();
        self.device.choose(name, create)
    }

    fn load(&mut self, alloc: Global, part: Part) -> Result<Vec<u8>, DeviceError> {
        self.device.load(alloc, part)
    }

    fn games_len(&mut self) -> Result<u64, Failed> {
        self.device.games_len()
    }

    fn read_games(&mut self, offset: u64, len: u32, into: &mut [u8]) -> Result<(), Failed> {
        self.device.read_games(offset, len, into)
    }

    fn append_games(&mut self, pad: u32, bytes: &[u8]) -> Result<(), DeviceError> {
        self.device.append_games(pad, bytes)
    }

    fn replace(&mut self, part: Part, bytes: &[u8]) -> Result<(), DeviceError> {
        self.hand_on();
        self.device.replace(part, bytes)
    }

    fn begin_new(&mut self) -> Result<(), DeviceError> {
        self.hand_on();
        self.device.begin_new()
    }

    fn append_new(&mut self, pad: u32, bytes: &[u8]) -> Result<(), DeviceError> {
        self.device.append_new(pad, bytes)
    }

    fn commit_new(&mut self, names: &[u8], index: &[u8]) -> Result<(), DeviceError> {
        self.hand_on();
        self.device.commit_new(names, index)
    }
}
