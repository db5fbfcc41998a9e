//! The records of the games that stay, copied into a new games file.
ghost use Rattle.std.specs.Prelude.{◌≡◌, ◌≤◌, ◌<◌, ◌+◌, ◌*◌, length, slice_get, Some, IfOk, IfErr, IfSome, OnOk, OnErr};
ghost use Rattle.base_files.specs.Counters.{Rose};
ghost use Rattle.base_files.specs.Seen.{FreshAlone};
ghost use Rattle.base_core.specs.Base.{Base as PlainBase};
ghost use Rattle.base_core.specs.Represents.{Represents};
ghost use Rattle.index_entry.specs.declared.entry.Entry.{Entry};
ghost use Rattle.compact_base.specs.Compacting.{IfChanged, kept_len, new_end};
ghost use Rattle.compact_base.specs.Drafting.{AddsFirst, Copies, CopiedFirst, CopiesIfKept, WhyNotCopied, len_if_kept};

use crate::devices::{append, begin};
use crate::fault::{CompactError, record_error};
use base_core::Base;
use base_files::Files;
use block_store::padding;
use sig_index::Games;

/// Begins a new games file, and adds the records of the games that stay to it, each after a look whether it is still the game's.
pub(crate) fn copy_games<F: Files>(
    base: &Base,
    files: &mut F,
    buf: &mut [u8],
) -> Result<(), CompactError>
    requires room { 131072 ≤ length buf.old }
    requires within { base.now.end ≤ (F.seen files.old).known }
    ensures copied { OnOk result (CopiedFirst (length base.now.entries) base.now (new_end base.now.entries) (F.seen files.old) (F.seen files.new)) }
    ensures records { OnOk result (AddsFirst (length base.now.entries) base.now (F.seen files.old) (F.seen files.new)) }
    ensures why { IfErr result (WhyNotCopied base.now (F.seen files.old).games buf.new) }
    ensures same { IfErr result (λ error. IfChanged error (IfSome (F.seen files.old).games (λ games. (plain : PlainBase) → Represents base.now games plain → ⊥))) }
    ensures left { OnErr result (FreshAlone (F.seen files.old) (F.seen files.new)) }
    ensures asks { F.asked files.new ≤ F.asked files.old + kept_len base.now.entries }
    ensures counts { F.faults files.old ≤ F.faults files.new }
    ensures cause { IfErr result (λ error. error ≡ CompactError.Failed → Rose (F.faults files.old) (F.faults files.new)) }
{
    begin(files)?;
    let mut end = 0;
    for i in 0..base.len() {
        match copy_if_kept(base, i, files, buf, end) {
            Ok(after) => end = after,
            Err(error) => return Err(error),
        }
    }
    Ok(())
}

// Adds the record of a game to the new games file, which ends at `end`, if the game stays, and tells where the file ends then.
fn copy_if_kept<F: Files>(
    base: &Base,
    i: u32,
    files: &mut F,
    buf: &mut [u8],
    end: u64,
) -> Result<u64, CompactError>
    requires there { i < length base.now.entries }
    requires room { 131072 ≤ length buf.old }
    requires within { base.now.end ≤ (F.seen files.old).known }
    requires small { end ≤ 262144 * i }
    ensures copied { IfOk result (λ after. CopiesIfKept i base.now end after (F.seen files.old) (F.seen files.new)) }
    ensures small { IfOk result (λ after. after ≤ 262144 * (i + 1)) }
    ensures why { IfErr result (WhyNotCopied base.now (F.seen files.old).games buf.new) }
    ensures same { IfErr result (λ error. IfChanged error (IfSome (F.seen files.old).games (λ games. (plain : PlainBase) → Represents base.now games plain → ⊥))) }
    ensures left { OnErr result (FreshAlone (F.seen files.old) (F.seen files.new)) }
    ensures asks { (e : Entry) → slice_get base.now.entries i ≡ Some e → F.asked files.new ≤ F.asked files.old + len_if_kept e }
    ensures counts { F.faults files.old ≤ F.faults files.new }
    ensures cause { IfErr result (λ error. error ≡ CompactError.Failed → Rose (F.faults files.old) (F.faults files.new)) }
{
    if base.is_deleted(i) {
        return Ok(end);
    }
    copy_record(base, i, files, buf, end)
}

// Adds the record of a game to the new games file.
fn copy_record<F: Files>(
    base: &Base,
    i: u32,
    files: &mut F,
    buf: &mut [u8],
    end: u64,
) -> Result<u64, CompactError>
    requires there { i < length base.now.entries }
    requires room { 131072 ≤ length buf.old }
    requires within { base.now.end ≤ (F.seen files.old).known }
    requires small { end ≤ 262144 * i }
    ensures copied { IfOk result (λ after. Copies i base.now end after (F.seen files.old) (F.seen files.new)) }
    ensures small { IfOk result (λ after. after ≤ 262144 * (i + 1)) }
    ensures why { IfErr result (WhyNotCopied base.now (F.seen files.old).games buf.new) }
    ensures same { IfErr result (λ error. IfChanged error (IfSome (F.seen files.old).games (λ games. (plain : PlainBase) → Represents base.now games plain → ⊥))) }
    ensures left { OnErr result (FreshAlone (F.seen files.old) (F.seen files.new)) }
    ensures asks { (e : Entry) → slice_get base.now.entries i ≡ Some e → F.asked files.new ≤ F.asked files.old + e.len }
    ensures counts { F.faults files.old ≤ F.faults files.new }
    ensures cause { IfErr result (λ error. error ≡ CompactError.Failed → Rose (F.faults files.old) (F.faults files.new)) }
{
    let read = match base.read_record(i, files, buf) {
        Ok(read) => read,
        Err(unread) => return Err(record_error(unread)),
    };
    let len = u64::from(read);
    let pad = padding(end, len);
    append(files, pad, &buf[..read as usize])?;
    Ok(end + u64::from(pad) + len)
}
