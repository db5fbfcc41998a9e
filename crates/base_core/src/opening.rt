//! Opening a base.
ghost use Rattle.std.specs.Prelude.{◌≡◌, ◌≤◌, ◌+◌, ◌*◌, ◌&&◌, Bool, false, length, Ok, Err, IfOk, IfErr, IfSome, OnErr, IsTrue};
ghost use Rattle.base_files.specs.Causes.{HasCause};
ghost use Rattle.base_files.specs.Counters.{Rose};
ghost use Rattle.base_files.specs.Seen.{measured};
ghost use Rattle.base_files.specs.Told.{Tells, TellsLength};
ghost use Rattle.block_store.specs.Placing.{IsEnd};
ghost use Rattle.base_core.specs.FirstFault.{FirstFault, whole_read};
ghost use Rattle.base_core.specs.Opening.{IfBad, IfTold, Opens, Refuses, are_empty, is_created, open_cost};
ghost use Rattle.sig_index.specs.Games.{AreWithin};
ghost use Rattle.base_core.specs.Represents.{IsSound, extents_of};
ghost use Rattle.index_entry.specs.Index.{IsIndexHead, head_in, index_read};
ghost use Rattle.name_base.specs.NamesFile.{NameFile};

use crate::base::Base;
use crate::checking::Opening;
use crate::fault::{BaseFault, OpenError};
use crate::reading::read_games;
use base_files::{DeviceError, Files, Part};
use index_entry::{IndexHead, read_index};
use name_base::{Names, read_names};
use std::alloc::Global;

// What is read of the files of a base before their records: the index, the names file and the length of the games file.
#[derive(Drop)]
struct Loaded {
    index: Vec<u8>,
    names: Vec<u8>,
    end: u64,
}

impl Base {
    /// Opens the base that was chosen, and tells how many of its entries had a derived field that was mended. With
    /// `create`, three empty files are a base without games. With `strict` a derived field that differs from the
    /// record's is a fault.
    ///
    /// Each record is read once, into `buf`.
    ///
    /// # Errors
    ///
    /// - `Bad` with the first fault of the files. The index comes first, and then the names file. Then come, for each
    ///   game, the fields of its entry, its ids, the place of its record, the record, and with `strict` its derived
    ///   fields.
    /// - `Failed` if the files fail.
    /// - `Memory` for want of memory.
    pub fn open_base<F: Files>(
        alloc: Global,
        files: &mut F,
        create: bool,
        strict: bool,
        buf: &mut [u8],
    ) -> Result<(Base, u32), OpenError>
        requires room { 131072 ≤ length buf.old }
        // What is opened is what the files mean, and what is told is their first fault.
        ensures opens { IfOk result (λ opened. IfTold (F.seen files.old) (λ index names games. Opens create strict index names games opened.0 opened.1)) }
        ensures refuses { IfErr result (IfBad (λ fault. IfTold (F.seen files.old) (λ index names games. Refuses create strict index names games fault))) }

        // Whatever the files hold, each record of the base lies within them, and nothing is unsaved.
        ensures sound { IfOk result (λ opened. IsSound opened.0) }
        ensures end { IfOk result (λ opened. opened.0.end ≡ (F.seen files.new).known) }
        ensures at_end { IfOk result (λ opened. IsEnd opened.0.end (F.seen files.new)) }
        ensures within { IfOk result (λ opened. AreWithin (F.seen files.new).known (extents_of opened.0)) }
        ensures saved { IfOk result (λ opened. opened.0.unsaved ≡ false) }
        ensures strictly { IfOk result (λ opened. IsTrue strict → opened.1 ≡ 0) }
        ensures few { IfOk result (λ opened. opened.1 ≤ length opened.0.entries) }
        ensures cause { IfErr result (λ error. error ≡ OpenError.Failed → Rose (F.faults files.old) (F.faults files.new)) }
        ensures counts { F.faults files.old ≤ F.faults files.new }
        ensures asks { IfSome (F.seen files.old).index (λ index. F.asked files.new ≤ F.asked files.old + open_cost index) }
        ensures measured { F.seen files.new ≡ measured (F.seen files.new).known (F.seen files.old) }
    {
        let loaded = match load(alloc, files) {
            Ok(loaded) => loaded,
            Err(error) => return Err(OpenError::from(error)),
        };
        if loaded.is_created(create) {
            return Ok((Base::empty(alloc), 0));
        }
        open_loaded(alloc, files, loaded, strict, buf)
    }
}

impl Loaded {
    // Whether a base is created, where that may be: all three files are empty.
    fn is_created(&self, create: bool) -> bool
        ensures created { result ≡ (create && are_empty self.now.index.items self.now.names.items self.now.end) }
    {
        create && self.is_empty()
    }

    // Whether all three files are empty.
    fn is_empty(&self) -> bool
        ensures empty { result ≡ are_empty self.now.index.items self.now.names.items self.now.end }
    {
        self.index.is_empty() && self.names.is_empty() && self.end == 0
    }
}

// What is read before the records.
fn load<F: Files>(alloc: Global, files: &mut F) -> Result<Loaded, DeviceError>
    ensures index { IfOk result (λ loaded. Tells (F.seen files.old).index loaded.index.items) }
    ensures names { IfOk result (λ loaded. Tells (F.seen files.old).names loaded.names.items) }
    ensures end { IfOk result (λ loaded. TellsLength (F.seen files.old).games loaded.end) }
    ensures known { IfOk result (λ loaded. F.seen files.new ≡ measured loaded.end (F.seen files.old)) }
    ensures unchanged { OnErr result (F.seen files.new ≡ F.seen files.old) }
    ensures none_asked { F.asked files.new ≡ F.asked files.old }
    ensures counts { F.faults files.old ≤ F.faults files.new }
    ensures cause { IfErr result (λ error. HasCause error (F.faults files.old) (F.faults files.new)) }
{
    let index = files.load(alloc, Part::Index)?;
    let names = files.load(alloc, Part::Names)?;
    let end = files.games_len()?;
    Ok(Loaded { index, names, end })
}

// Opens the base of these files, which is not created.
fn open_loaded<F: Files>(
    alloc: Global,
    files: &mut F,
    loaded: Loaded,
    strict: bool,
    buf: &mut [u8],
) -> Result<(Base, u32), OpenError>
    requires room { 131072 ≤ length buf.old }
    requires known { loaded.end ≡ (F.seen files.old).known }
    requires told { TellsLength (F.seen files.old).games loaded.end }
    ensures opens { IfOk result (λ opened. IfSome (F.seen files.old).games (λ games. (create : Bool) → is_created create loaded.index.items loaded.names.items games ≡ false →
        Opens create strict loaded.index.items loaded.names.items games opened.0 opened.1)) }
    ensures refuses { IfErr result (IfBad (λ fault. IfSome (F.seen files.old).games (λ games. FirstFault strict loaded.index.items loaded.names.items games fault))) }
    ensures sound { IfOk result (λ opened. IsSound opened.0) }
    ensures end { IfOk result (λ opened. opened.0.end ≡ loaded.end) }
    ensures saved { IfOk result (λ opened. opened.0.unsaved ≡ false) }
    ensures strictly { IfOk result (λ opened. IsTrue strict → opened.1 ≡ 0) }
    ensures few { IfOk result (λ opened. opened.1 ≤ length opened.0.entries) }
    ensures cause { IfErr result (λ error. error ≡ OpenError.Failed → Rose (F.faults files.old) (F.faults files.new)) }
    ensures counts { F.faults files.old ≤ F.faults files.new }
    ensures asks { F.asked files.new ≤ F.asked files.old + open_cost loaded.index.items }
    ensures unchanged { F.seen files.new ≡ F.seen files.old }
{
    let (header, names) = match read_whole(alloc, &loaded) {
        Ok(whole) => whole,
        Err(error) => return Err(error),
    };
    let Loaded { index, end, .. } = loaded;
    let opening = Opening {
        names: &names,
        end,
        strict,
    };
    let (entries, mended) = match read_games(alloc, files, &opening, index, header.games, buf) {
        Ok(read) => read,
        Err(error) => return Err(error),
    };
    Ok((Base::of(header, names, entries, end), mended))
}

// The header of the index and the names.
fn read_whole(alloc: Global, loaded: &Loaded) -> Result<(IndexHead, Names), OpenError>
    ensures header { IfOk result (λ whole. index_read loaded.now.index.items ≡ Ok whole.0) }
    ensures names { IfOk result (λ whole. NameFile loaded.now.names.items whole.1) }
    ensures entries { IfOk result (λ whole. 182 + 47 * whole.0.games ≤ length loaded.now.index.items) }
    ensures head { IfOk result (λ whole. whole.0 ≡ head_in loaded.now.index.items) }
    ensures sound { IfOk result (λ whole. IsIndexHead whole.0) }
    ensures fault { IfErr result (IfBad (λ fault. whole_read loaded.now.index.items loaded.now.names.items ≡ Err fault)) }
    ensures no_files { IfErr result (λ error. error ≡ OpenError.Failed → ⊥) }
{
    let header = match read_index(loaded.index.as_slice()) {
        Ok(header) => header,
        Err(fault) => return Err(OpenError::Bad(BaseFault::Index(fault))),
    };
    match read_names(alloc, loaded.names.as_slice()) {
        Ok(names) => Ok((header, names)),
        Err(error) => Err(OpenError::from(error)),
    }
}
