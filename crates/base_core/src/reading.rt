//! Reading the games of a base that is opened.
ghost use Rattle.std.specs.Prelude.{◌≡◌, ◌≤◌, ◌<◌, ◌+◌, ◌*◌, ◌^◌, All, List, length, IfOk, IfErr, IfSome, IsTrue, false, if◌then◌else◌};
ghost use Rattle.base_files.specs.Counters.{Rose};
ghost use Rattle.base_files.specs.Told.{TellsLength};
ghost use Rattle.game_tree.specs.Date.{IsDate, keeps_rule};
ghost use Rattle.game_tree.specs.Game.{GameTree};
ghost use Rattle.game_tree.specs.Settle.{settled};
ghost use Rattle.game_tree.specs.declared.head.Tag.{Tag as TagValue};
ghost use Rattle.game_codec.specs.Fault.{IsRecordFault};
ghost use Rattle.game_codec.specs.Record.{IsRecord};
ghost use Rattle.index_entry.specs.Entry.{IsEntry, entry_in};
ghost use Rattle.name_base.specs.NameLists.{NameLists};
ghost use Rattle.sig_index.specs.Signature.{IsSigBounded};
ghost use Rattle.base_core.specs.Entries.{head_of};
ghost use Rattle.base_core.specs.FirstFault.{EntryFails, Fails};
ghost use Rattle.base_core.specs.Opening.{IfBad, records_len};
ghost use Rattle.base_core.specs.Reading.{AreRead, HasSig, IsMended, IsNotTaken, IsReadSo, IsSigned, IsTaken};
ghost use Rattle.base_core.specs.Represents.{IsKept};

use crate::checking::{Opening, checked_entry, differing, kept_entry};
use crate::entries::Entries;
use crate::fault::{BaseFault, OpenError};
use crate::long_records::LongRecords;
use crate::part_read::PartRead;
use base_files::Files;
use game_codec::{MainPlace, RecordFault, event_date_in};
use game_tree::Date;
use index_entry::{ENTRY_LEN, Entry};
use sig_index::{Sig, signed};
use std::alloc::Global;

// What a record says beside its entry: the signature of its game, and the event date of its settled head.
#[derive(Clone, Copy, Debug, Drop)]
struct Signed {
    sig: Sig,
    event_date: Date,
}

// What is kept of a game's entry, and whether its derived fields were mended.
#[derive(Clone, Copy, Debug, Drop)]
struct GameRead {
    entry: Entry,
    mended: bool,
}

impl GameRead {
    // How many entries this is that were mended.
    fn count(&self) -> u32
        ensures count { result ≡ (if self.now.mended then 1 else 0) }
    {
        if self.mended { 1 } else { 0 }
    }
}

/// The entries of so many games with their derived fields mended, in the bytes of their index, and how many of them were. Each record
/// is read once, into `buf`.
pub(crate) fn read_games<F: Files>(
    alloc: Global,
    files: &mut F,
    o: &Opening<'_>,
    index: Vec<u8>,
    count: u32,
    buf: &mut [u8],
) -> Result<(Entries, u32), OpenError>
    requires there { 182 + 47 * count ≤ length index.items }
    requires room { 131072 ≤ length buf.old }
    requires known { o.now.end ≤ (F.seen files.old).known }
    requires told { TellsLength (F.seen files.old).games o.now.end }
    ensures read { IfOk result (λ opened. IfSome (F.seen files.old).games (λ games. AreRead o.now.strict index.items o.now.names.now games opened.0 opened.1)) }
    ensures count { IfOk result (λ opened. length opened.0 ≡ count) }
    ensures strictly { IfOk result (λ opened. IsTrue o.now.strict → opened.1 ≡ 0) }
    ensures few { IfOk result (λ opened. opened.1 ≤ count) }
    ensures kept { IfOk result (λ opened. All (IsKept o.now.names.now o.now.end) opened.0) }
    ensures fault { IfErr result (IfBad (λ fault. IfSome (F.seen files.old).games (λ games.
        EntryFails o.now.strict index.items o.now.names.now games count fault))) }
    ensures asks { F.asked files.new ≤ F.asked files.old + records_len index.items count }
    ensures unchanged { F.seen files.new ≡ F.seen files.old }
    ensures counts { F.faults files.old ≤ F.faults files.new }
    ensures cause { IfErr result (λ error. error ≡ OpenError.Failed → Rose (F.faults files.old) (F.faults files.new)) }
{
    let mut part = PartRead::of(index);
    let mut long = LongRecords::new(alloc);
    let mut mended = 0;
    for game in 0..count {
        let read = read_game(files, o, &mut long, game, &part.next(), buf)?;
        part.put(&read.entry);
        mended += read.count();
    }
    Ok((part.into_entries(), mended))
}

// The entry that a game has in these 47 bytes, with its derived fields mended. Its record is read into `buf`.
fn read_game<F: Files>(
    files: &mut F,
    o: &Opening<'_>,
    long: &mut LongRecords,
    game: u32,
    packed: &[u8; ENTRY_LEN],
    buf: &mut [u8],
) -> Result<GameRead, OpenError>
    requires room { 131072 ≤ length buf.old }
    requires known { o.now.end ≤ (F.seen files.old).known }
    requires told { TellsLength (F.seen files.old).games o.now.end }
    ensures read { IfOk result (λ read. IfSome (F.seen files.old).games (λ games.
        IsReadSo o.now.strict o.now.names.now games game packed.now read.entry read.mended)) }
    ensures kept { IfOk result (λ read. IsKept o.now.names.now o.now.end read.entry) }
    ensures strictly { IfOk result (λ read. IsTrue o.now.strict → read.mended ≡ false) }
    ensures fault { IfErr result (IfBad (λ fault. IfSome (F.seen files.old).games (λ games.
        Fails o.now.strict o.now.names.now games game packed.now fault))) }
    ensures asks { F.asked files.new ≤ F.asked files.old + (entry_in packed.now).len }
    ensures unchanged { F.seen files.new ≡ F.seen files.old }
    ensures counts { F.faults files.old ≤ F.faults files.new }
    ensures cause { IfErr result (λ error. error ≡ OpenError.Failed → Rose (F.faults files.old) (F.faults files.new)) }
{
    let entry = match checked_entry(o, game, packed) {
        Ok(entry) => entry,
        Err(fault) => return Err(OpenError::Bad(fault)),
    };
    if files
        .read_games(u64::from(entry.offset), entry.len, buf)
        .is_err()
    {
        return Err(OpenError::Failed);
    }
    taken_entry(o.strict, long, game, &entry, &buf[..entry.len as usize])
}

// The entry with its derived fields mended by the bytes of its record.
fn taken_entry(
    strict: bool,
    long: &mut LongRecords,
    game: u32,
    entry: &Entry,
    bytes: &[u8],
) -> Result<GameRead, OpenError>
    requires fields { IsEntry entry.now }
    requires few { length bytes.now < 2 ^ 32 }
    ensures taken { IfOk result (λ read. IsTaken strict bytes.now entry.now read.entry read.mended) }
    ensures not_taken { IfErr result (IfBad (IsNotTaken strict game bytes.now entry.now)) }
    ensures fields { IfOk result (λ read. IsEntry read.entry) }
    ensures homes { IfOk result (λ read. read.entry.home_count ≤ 16) }
    ensures strictly { IfOk result (λ read. IsTrue strict → read.mended ≡ false) }
    ensures no_files { IfErr result (λ error. error ≡ OpenError.Failed → ⊥) }
{
    let sig = match long.signature(bytes) {
        Ok(sig) => sig,
        Err(fault) => return Err(OpenError::Bad(BaseFault::Packed { game, fault })),
    };
    let signed = signed_by(entry, bytes, sig);
    let found = differing(entry, &signed.sig);
    match found {
        Some(field) if strict => Err(OpenError::Bad(BaseFault::Derived { game, field })),
        _ => Ok(GameRead {
            entry: kept_entry(entry, &signed.sig, signed.event_date),
            mended: found.is_some(),
        }),
    }
}

/// The entry with its derived fields and its event date mended by the bytes of its record.
///
/// # Errors
///
/// The first fault of the record.
pub fn mended_entry(entry: &Entry, bytes: &[u8]) -> Result<Entry, RecordFault>
    requires fields { IsEntry entry.now }
    requires few { length bytes.now < 2 ^ 32 }
    ensures mended { IfOk result (IsMended bytes.now entry.now) }
    ensures fault { IfErr result (IsRecordFault bytes.now) }
    ensures fields { IfOk result IsEntry }
    ensures homes { IfOk result (λ kept. kept.home_count ≤ 16) }
{
    let sig = signed(bytes, &mut MainPlace::new())?;
    let signed = signed_by(entry, bytes, sig);
    Ok(kept_entry(entry, &signed.sig, signed.event_date))
}

// What the bytes of the entry's record say, whose game has this signature.
fn signed_by(entry: &Entry, bytes: &[u8], sig: Sig) -> Signed
    requires fields { IsEntry entry.now }
    requires has { HasSig bytes.now sig }
    requires bounded { IsSigBounded sig }
    ensures signed { IsSigned bytes.now entry.now result.sig result.event_date }
    ensures bounded { IsSigBounded result.sig }
    ensures event_date { IsDate result.event_date × IsTrue (keeps_rule result.event_date entry.now.date) }
{
    Signed {
        sig,
        event_date: settled_event_date(entry, bytes),
    }
}

// The event date that the head of an entry has when it is settled with the tags of its record. The names do not matter.
fn settled_event_date(e: &Entry, bytes: &[u8]) -> Date
    requires fields { IsEntry e.now }
    ensures date { (tags : List TagValue) (game : GameTree) → IsRecord bytes.now tags game → (names : NameLists) → (settled (head_of names e.now tags)).event_date ≡ result }
    ensures bounded { IsDate result }
    ensures rule { IsTrue (keeps_rule result e.now.date) }
{
    if e.event_date.is_near(e.date) {
        return e.event_date;
    }
    match event_date_in(bytes, e.date) {
        Some(date) => date,
        None => e.event_date,
    }
}
