//! A page of tagged text.
ghost use Rattle.std.specs.Prelude.{◌≡◌, ◌≤◌, ◌<◌, ◌++◌, [], drop, length, take, IfOk, IfErr, IsErrOf, OnOk, OnErr};
ghost use Rattle.base_files.specs.Causes.{HasCause};
ghost use Rattle.base_files.specs.Counters.{raised};
ghost use Rattle.base_files.specs.Told.{adds, Grew};
ghost use Rattle.command_runs.specs.Counts.{Causes, Why, counts};
ghost use Rattle.command_runs.specs.Endings.{Halted, NoneLost};
ghost use Rattle.command_runs.specs.Rendered.{Opening, Rendered, said};
ghost use Rattle.command_runs.specs.Tagged.{line_begins, tagged_lines};
ghost use Rattle.command_runs.specs.Waiting.{none_waits};

use crate::line::{lead, line_size, put_both};
use crate::writing::write_from;
use base_files::{DeviceError, FaultCount, Sink, Stop};
use std::alloc::{AllocError, Global};
use std::marker::Model;

/// How many bytes fill a page.
const PAGE: usize = 16384;

/// Text that waits to be written, with its tags in it.
#[derive(Drop)]
pub struct TagPage {
    bytes: Vec<u8>,
    // How many of them were written.
    written: usize,
    // Whether a line begins behind them.
    begins: bool,
    faults: FaultCount,
}

impl Model for TagPage {
    ghost use Rattle.std.specs.Prelude.{◌≤◌, drop, length};
    ghost use Rattle.command_runs.specs.Waiting.{Waiting};

    ghost Value = { Waiting };

    ghost view = { λ page. record { bytes = drop page.written page.bytes.items; begins = page.begins; faults = page.faults } };

    ghost invariant = { λ page. page.written ≤ length page.bytes.items };
}

impl TagPage {
    /// A page on which nothing waits. It takes all the memory that it will use, if no tag has more than 64 bytes.
    pub fn new(alloc: Global) -> Result<TagPage, AllocError>
        ensures nothing { IfOk result (λ page. page ≡ none_waits) }
    {
        Ok(TagPage {
            bytes: Vec::with_capacity(alloc, 2 * PAGE + 64)?,
            written: 0,
            begins: true,
            faults: FaultCount::new(),
        })
    }

    /// Forgets what waits, and begins a text.
    pub fn clear(&mut self)
        ensures nothing { self.new ≡ none_waits }
    {
        self.bytes.clear();
        self.written = 0;
        self.begins = true;
        self.faults = FaultCount::new();
    }

    // Takes the front of a piece of a text with this tag, and says how many bytes.
    pub(crate) fn write<K: Sink>(
        &mut self,
        out: &mut K,
        tag: &[u8],
        piece: &[u8],
    ) -> Result<usize, DeviceError>
        requires some { 0 < length piece.now }
        ensures some { IfOk result (λ n. 0 < n) }
        ensures fits { IfOk result (λ n. n ≤ length piece.now) }
        ensures added { IfOk result (λ n. (o : Opening) → o.tag ≡ tag.now → Rendered o (K.taken out.old) (K.faults out.old) self.old → said o (K.taken out.new) self.new ≡ adds (said o (K.taken out.old) self.old) (take n piece.now)) }
        ensures none_added { OnErr result ((o : Opening) → o.tag ≡ tag.now → Rendered o (K.taken out.old) (K.faults out.old) self.old → said o (K.taken out.new) self.new ≡ said o (K.taken out.old) self.old) }
        ensures counts { self.old.faults ≤ self.new.faults }
        ensures cause { IfErr result (λ e. HasCause e self.old.faults self.new.faults) }
        ensures memory { IsErrOf result DeviceError.Memory → self.new.faults ≡ self.old.faults }
        ensures rendered { (o : Opening) → o.tag ≡ tag.now → Rendered o (K.taken out.old) (K.faults out.old) self.old → Rendered o (K.taken out.new) (K.faults out.new) self.new }
    {
        match self.add(out, tag, piece) {
            Ok(count) => Ok(count),
            Err(DeviceError::Failed) => Err(self.fail()),
            Err(DeviceError::Memory) => Err(DeviceError::Memory),
        }
    }

    // Counts a write that failed.
    fn fail(&mut self) -> DeviceError
        ensures failed { result ≡ DeviceError.Failed }
        ensures counted { self.new ≡ record self.old { faults = raised self.old.faults 1 } }
        ensures counts { self.old.faults ≤ self.new.faults }
    {
        DeviceError::from(self.faults.fault())
    }

    // Puts the front of a piece, of one line at most, behind its tag on the page, and says how many bytes of the piece it was. First it
    // writes what waits, if that fills the page.
    fn add<K: Sink>(&mut self, out: &mut K, tag: &[u8], piece: &[u8]) -> Result<usize, DeviceError>
        requires some { 0 < length piece.now }
        ensures some { IfOk result (λ n. 0 < n) }
        ensures fits { IfOk result (λ n. n ≤ length piece.now) }
        ensures put { IfOk result (λ n. adds (K.taken out.new) self.new.bytes ≡ adds (K.taken out.old) (self.old.bytes ++ tagged_lines self.old.begins tag.now (take n piece.now))) }
        ensures begins { IfOk result (λ n. self.new.begins ≡ line_begins self.old.begins (take n piece.now)) }
        ensures kept { OnErr result (adds (K.taken out.new) self.new.bytes ≡ adds (K.taken out.old) self.old.bytes) }
        ensures line { OnErr result (self.new.begins ≡ self.old.begins) }
        ensures same { self.new.faults ≡ self.old.faults }
        ensures grew { Grew (K.taken out.old) (K.taken out.new) }
        ensures counts { K.faults out.old ≤ K.faults out.new }
        ensures cause { IfErr result (λ e. HasCause e (K.faults out.old) (K.faults out.new)) }
    {
        if self.bytes.len() >= PAGE {
            self.write_out(out)?;
        }
        Ok(self.put(tag, piece)?)
    }

    // Puts the front of a piece, of one line at most, behind its tag on the page, and says how many bytes of the piece it was.
    fn put(&mut self, tag: &[u8], piece: &[u8]) -> Result<usize, AllocError>
        requires some { 0 < length piece.now }
        ensures some { IfOk result (λ n. 0 < n) }
        ensures fits { IfOk result (λ n. n ≤ length piece.now) }
        ensures put { IfOk result (λ n. self.new.bytes ≡ self.old.bytes ++ tagged_lines self.old.begins tag.now (take n piece.now)) }
        ensures begins { IfOk result (λ n. self.new.begins ≡ line_begins self.old.begins (take n piece.now)) }
        ensures same { self.new.faults ≡ self.old.faults }
        ensures kept { OnErr result (self.new ≡ self.old) }
    {
        let part = piece.split_at(piece.len().min(PAGE)).0;
        let count = line_size(part);
        let front = part.split_at(count).0;
        put_both(&mut self.bytes, lead(self.begins, tag), front)?;
        self.begins = front[count - 1] == b'\n';
        Ok(count)
    }

    // Writes all that waits. After an error what was not written waits still.
    fn write_out<K: Sink>(&mut self, out: &mut K) -> Result<(), DeviceError>
        ensures kept { adds (K.taken out.new) self.new.bytes ≡ adds (K.taken out.old) self.old.bytes }
        ensures empty { OnOk result (self.new.bytes ≡ []) }
        ensures line { self.new.begins ≡ self.old.begins }
        ensures same { self.new.faults ≡ self.old.faults }
        ensures grew { Grew (K.taken out.old) (K.taken out.new) }
        ensures counts { K.faults out.old ≤ K.faults out.new }
        ensures cause { IfErr result (λ e. HasCause e (K.faults out.old) (K.faults out.new)) }
    {
        write_from(self.bytes.as_slice(), &mut self.written, out)?;
        self.bytes.clear();
        self.written = 0;
        Ok(())
    }

    /// Writes all that waits. After an error what was not written waits still.
    pub fn flush<K: Sink>(&mut self, out: &mut K) -> Result<(), Stop>
        ensures empty { OnOk result (self.new.bytes ≡ []) }
        ensures kept { adds (K.taken out.new) self.new.bytes ≡ adds (K.taken out.old) self.old.bytes }
        ensures written { OnOk result (K.taken out.new ≡ adds (K.taken out.old) self.old.bytes) }
        ensures halted { Halted [] self.old.bytes (K.taken out.old) (K.taken out.new) }
        ensures none_lost { NoneLost (K.taken out.old) (K.taken out.new) }
        ensures causes { Causes Why result (counts 0 0 (K.faults out.old)) (counts 0 0 (K.faults out.new)) }
    {
        match self.write_out(out) {
            Ok(()) => Ok(()),
            Err(error) => Err(error.of_output()),
        }
    }
}
