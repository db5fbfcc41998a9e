//! Compacting a base.
ghost use Rattle.std.specs.Prelude.{◌≡◌, ◌≤◌, ◌+◌, false, length, IfOk, IfErr, IfSome, OnOk, OnErr};
ghost use Rattle.base_files.specs.Counters.{Rose};
ghost use Rattle.base_files.specs.Seen.{FreshAlone};
ghost use Rattle.block_store.specs.Placing.{IsEnd, longest_file};
ghost use Rattle.base_core.specs.Base.{Base as PlainBase};
ghost use Rattle.base_core.specs.Represents.{Represents};
ghost use Rattle.base_core.specs.Saved.{MeansIt};
ghost use Rattle.compact_base.specs.Compacting.{Compacts, CopiesRecords, IfChanged, IsCommitted, WhyNotCompacted, kept_len, new_end, numbering};
ghost use Rattle.compact_base.specs.Drafting.{IsWritten, WhyNotCopied};

use crate::copying::copy_games;
use crate::devices::commit;
use crate::drafting::draft_of;
use crate::fault::CompactError;
use crate::numbering::numbering_of;
use base_core::Base;
use base_files::Files;
use game_filter::Renumbering;
use std::alloc::Global;

/// Leaves the undeleted games in their order, with the bytes of their records, and the names that they use. The three
/// files mean this base then. Tells how the games are numbered anew. `buf` has room for the longest record.
///
/// # Errors
///
/// - `Full` if the new games file would pass 4,294,967,295 bytes.
/// - `Changed` if a record has changed since the base was opened.
/// - `Failed` if the files fail.
/// - `Memory` for want of memory.
///
/// The base and its current files are then as they were.
pub fn compact<F: Files>(
    alloc: Global,
    base: &mut Base,
    files: &mut F,
    buf: &mut [u8],
) -> Result<Renumbering, CompactError>
    requires room { 131072 ≤ length buf.old }
    requires at_end { IsEnd base.old.end (F.seen files.old) }
    ensures compacted { OnOk result (Compacts base.old base.new (F.seen files.old).games (F.seen files.new).games) }
    ensures count { OnOk result (length base.new.entries ≡ (numbering base.old.entries).kept) }
    ensures numbers { IfOk result (λ renumbering. renumbering ≡ numbering base.old.entries) }
    // Whatever the files hold, each record that was copied is one of a legal game with the signature that is kept.
    ensures copied { OnOk result (CopiesRecords base.old (F.seen files.old) (F.seen files.new)) }
    // The files mean the base, and open again as it. Each record has the bytes that it had.
    ensures means { OnOk result (MeansIt base.new (F.seen files.new)) }
    ensures committed { OnOk result (IsCommitted base.old base.new (F.seen files.old) (F.seen files.new)) }
    ensures saved { OnOk result (base.new.unsaved ≡ false) }
    ensures room { OnOk result (new_end base.old.entries ≤ longest_file) }
    ensures why { IfErr result (WhyNotCompacted base.old (F.seen files.old).games buf.new) }
    // If the files tell the records of a base, no game has changed.
    ensures same { IfErr result (λ error. IfChanged error (IfSome (F.seen files.old).games (λ games. (plain : PlainBase) → Represents base.old games plain → ⊥))) }
    ensures unchanged { OnErr result (base.new ≡ base.old) }
    // Of the files the new games file alone may have changed. None is begun that would be too long.
    ensures left { OnErr result (FreshAlone (F.seen files.old) (F.seen files.new)) }
    ensures unbegun { IfErr result (λ error. error ≡ CompactError.Full → F.seen files.new ≡ F.seen files.old) }
    ensures at_end { IsEnd base.new.end (F.seen files.new) }
    ensures asks { F.asked files.new ≤ F.asked files.old + kept_len base.old.entries }
    ensures counts { F.faults files.old ≤ F.faults files.new }
    ensures cause { IfErr result (λ error. error ≡ CompactError.Failed → Rose (F.faults files.old) (F.faults files.new)) }
{
    let draft = draft_of(alloc, base)?;
    let renumbering = numbering_of(alloc, base)?;
    let (names, index) = draft.write(alloc)?;
    if let Err(error) = write_files(base, files, buf, names.as_slice(), index.as_slice()) {
        return Err(error);
    }
    base.adopt(draft);
    Ok(renumbering)
}

// Copies the records of the games that stay, and puts all three files in the place of the current ones.
fn write_files<F: Files>(
    base: &Base,
    files: &mut F,
    buf: &mut [u8],
    names: &[u8],
    index: &[u8],
) -> Result<(), CompactError>
    requires room { 131072 ≤ length buf.old }
    requires within { base.now.end ≤ (F.seen files.old).known }
    ensures written { OnOk result (IsWritten base.now names.now index.now (F.seen files.old) (F.seen files.new)) }
    ensures copied { OnOk result (CopiesRecords base.now (F.seen files.old) (F.seen files.new)) }
    ensures why { IfErr result (WhyNotCopied base.now (F.seen files.old).games buf.new) }
    ensures same { IfErr result (λ error. IfChanged error (IfSome (F.seen files.old).games (λ games. (plain : PlainBase) → Represents base.now games plain → ⊥))) }
    ensures left { OnErr result (FreshAlone (F.seen files.old) (F.seen files.new)) }
    ensures asks { F.asked files.new ≤ F.asked files.old + kept_len base.now.entries }
    ensures counts { F.faults files.old ≤ F.faults files.new }
    ensures cause { IfErr result (λ error. error ≡ CompactError.Failed → Rose (F.faults files.old) (F.faults files.new)) }
{
    match copy_games(base, files, buf) {
        Ok(()) => commit(files, names, index),
        Err(error) => Err(error),
    }
}
