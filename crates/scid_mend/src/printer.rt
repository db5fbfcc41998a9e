//! The report on standard output.
ghost use Rattle.std.specs.Prelude.{◌≡◌, ◌≤◌, None, [], IfErr, OnErr, OnOk};
ghost use Rattle.base_files.specs.Causes.{HasCause};
ghost use Rattle.mend_base.specs.Notes.{with_note, with_notes};

use crate::absent::Absent;
use base_files::{DeviceError, FaultCount};
use mend_base::{Mended, Note, Report};
use std::io;
use std::io::Write;
use std::marker::Model;
use watched_devices::ProgressLine;

/// A report that writes a line for each note, and tells nothing of them.
#[derive(Drop)]
pub struct Printer<'p, W> {
    writer: W,
    line: &'p ProgressLine<'p>,
    faults: FaultCount,
}

impl<'p, W> Model for Printer<'p, W> {
    ghost use Rattle.std.specs.Prelude.{ℕ};

    ghost Value = { ℕ };

    ghost view = { λ printer. printer.faults };
}

impl<'p, W: Write> Printer<'p, W> {
    /// A printer to this writer, which counted no fault yet. The progress line goes where it writes.
    pub fn new(writer: W, line: &'p ProgressLine<'p>) -> Printer<'p, W> {
        Printer {
            writer,
            line,
            faults: FaultCount::new(),
        }
    }

    /// Writes a line for each file of the old base that is not there.
    pub fn tell_absent(&mut self, absent: Absent) -> io::Result<()> {
        if absent.index {
            writeln!(self.writer, "index file: not there")?;
        }
        if absent.names {
            writeln!(self.writer, "names file: not there; no name is known")?;
        }
        if absent.games {
            writeln!(self.writer, "games file: not there; no record is known")?;
        }
        Ok(())
    }

    /// Writes the last line, and hands on what the writer holds back.
    pub fn end(&mut self, mended: Mended) -> io::Result<()> {
        self.line.before_text();
        writeln!(
            self.writer,
            "mended {} of {} games, {} changed",
            mended.came, mended.of, mended.changed
        )?;
        self.flush()
    }

    /// Hands on what the writer holds back.
    pub fn flush(&mut self) -> io::Result<()> {
        self.writer.flush()
    }
}

impl<'p, W: Write> Report for Printer<'p, W> {
    ghost told = { λ _. None };

    ghost faults = { λ printer. printer };

    fn tell(&mut self, note: &Note) -> Result<(), DeviceError>
        ensures told { OnOk result (None ≡ with_note None note.now) }
        ensures not_told { OnErr result (None ≡ with_notes None []) }
        ensures counts { self.old ≤ self.new }
        ensures cause { IfErr result (λ e. HasCause e self.old self.new) }
    {
        self.line.before_text();
        match writeln!(self.writer, "{note}") {
            Ok(()) => Ok(()),
            Err(error) => Err(self.faults.error(error.kind())),
        }
    }
}
