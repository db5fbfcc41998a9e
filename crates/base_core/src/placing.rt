//! Edits that place a record: a game is added, put in the place of another, or has a tag set.
ghost use Rattle.std.specs.Prelude.{◌≡◌, ◌≢◌, ℕ, ◌≤◌, ◌<◌, ◌+◌, ◌-◌, ◌^◌, ◌↔◌, ◌++◌, [], ◌∷◌, None, Some, true, length, take, slice_get, slice_set, IfOk, IfErr, OnOk, OnErr, IfSome, IsErrOf};
ghost use Rattle.base_files.specs.Counters.{Rose};
ghost use Rattle.base_files.specs.Extents.{IsPlaced};
ghost use Rattle.base_files.specs.Seen.{appended, AppendedInPart};
ghost use Rattle.block_store.specs.Placing.{IsEnd, end_after, padded, placed_at};
ghost use Rattle.game_codec.specs.Written.{written_record};
ghost use Rattle.game_tree.specs.Head.{IsBounded};
ghost use Rattle.game_tree.specs.Legal.{IsLegalGame};
ghost use Rattle.game_tree.specs.Settle.{IsSettled};
ghost use Rattle.game_tree.specs.TagEdit.{IsEdit};
ghost use Rattle.index_entry.specs.Entry.{IsEntry};
ghost use Rattle.index_entry.specs.declared.entry.Entry.{Entry as EntryValue};
ghost use Rattle.base_core.specs.Base.{Base as PlainBase};
ghost use Rattle.base_core.specs.Edited.{CanPlace, Places, WhyNotPlaced, WhyNotReplaced, first_full, or_file};
ghost use Rattle.base_core.specs.Edits.{added, end_with, game_replaced, names_with};
ghost use Rattle.base_core.specs.GameAt.{IfChanged};
ghost use Rattle.base_core.specs.Means.{HoldsNames};
ghost use Rattle.base_core.specs.Placing.{entry_with};
ghost use Rattle.base_core.specs.Represents.{Represents};
ghost use Rattle.base_core.specs.Tagged.{IsTagged, Tags, WhyNotTagged};

use crate::base::Base;
use crate::entries::Entries;
use crate::fault::{EditError, What};
use crate::naming::{NameIds, add_names, counts_of, cut_names};
use base_files::Files;
use block_store::Store;
use game_codec::encode_to_end;
use game_tree::{Game, Head, TagEdit, apply};
use index_entry::Entry;
use sig_index::{Sig, sig_ending};
use std::alloc::Global;

/// The greatest number of games of a base.
const MOST_GAMES: u32 = 16_777_214;

impl Base {
    /// Adds a game, and gives its number. Its record goes to the end of the games file.
    ///
    /// # Errors
    ///
    /// - `TooLong` if its record would have more than 131,071 bytes.
    /// - `Full` if the games, the names of a kind or the games file would pass their limit, with the first of them in
    ///   this order.
    /// - `Failed` if the files fail.
    /// - `Memory` for want of memory.
    ///
    /// The base is then as it was. After `Failed` it is not to be used again.
    pub fn add<F: Files>(
        &mut self,
        alloc: Global,
        files: &mut F,
        head: &Head,
        g: &Game,
    ) -> Result<u32, EditError>
        requires legal { IsLegalGame g.now }
        requires bounded { IsBounded head.now }
        requires settled { IsSettled head.now }
        requires at_end { IsEnd self.old.end (F.seen files.old) }
        ensures added { OnOk result (Places (written_record head.now.tags g.now) (added head.now g.now) self.old self.new) }
        ensures number { IfOk result (λ i. i ≡ length self.old.entries) }
        ensures count { OnOk result (length self.new.entries ≡ length self.old.entries + 1) }
        // What is kept of the other games stays.
        ensures others { OnOk result (take (length self.old.entries) self.new.entries ≡ self.old.entries) }
        ensures unsaved { OnOk result (self.new.unsaved ≡ true) }
        ensures appended { OnOk result (F.seen files.new ≡ appended (padded self.old.end (written_record head.now.tags g.now)) (F.seen files.old)) }
        ensures room { OnOk result (CanPlace (length (written_record head.now.tags g.now)) (first_full (length self.old.entries + 1) (names_with head.now self.old.names) (end_with head.now g.now self.old.end))) }
        ensures why { IfErr result (WhyNotPlaced (length (written_record head.now.tags g.now)) (first_full (length self.old.entries + 1) (names_with head.now self.old.names) (end_with head.now g.now self.old.end))) }
        ensures unchanged { OnErr result (self.new ≡ self.old) }
        // Each name keeps its id.
        ensures names { HoldsNames self.new.names self.old.names }
        ensures in_part { IsErrOf result EditError.Failed → AppendedInPart (F.seen files.old) (F.seen files.new) }
        ensures none_added { OnErr result (result ≢ Err EditError.Failed → F.seen files.new ≡ F.seen files.old) }
        ensures at_end { result ≢ Err EditError.Failed → IsEnd self.new.end (F.seen files.new) }
        ensures none_asked { F.asked files.new ≡ F.asked files.old }
        ensures counts { F.faults files.old ≤ F.faults files.new }
        ensures cause { IfErr result (λ error. error ≡ EditError.Failed → Rose (F.faults files.old) (F.faults files.new)) }
    {
        let encoded = encode_to_end(alloc, g, head.tags.as_slice())?;
        let i = self.entries.len();
        if MOST_GAMES <= i {
            return Err(EditError::Full(What::Games));
        }
        let counts = counts_of(&self.names);
        let ids = add_names(alloc, &mut self.names, head)?;
        let entry = entry_with(
            &ids,
            head,
            &sig_ending(g, &encoded.last),
            encoded.record.len() as u32,
        );
        if let Err(error) = add_entry(
            &mut self.entries,
            &mut self.store,
            &entry,
            encoded.record.as_slice(),
            files,
        ) {
            cut_names(&mut self.names, &counts);
            return Err(error);
        }
        self.header.games += 1;
        self.unsaved = true;
        Ok(i)
    }

    /// Puts a game in the place of game `i`. Its record goes to the end of the games file, and the old one stays where
    /// it is.
    ///
    /// # Errors
    ///
    /// - `NoGame` if and only if there is no game of this number.
    /// - `TooLong` if the record would have more than 131,071 bytes.
    /// - `Full` if the names of a kind or the games file would pass their limit, with the first of them in this order.
    /// - `Failed` if the files fail.
    /// - `Memory` for want of memory.
    ///
    /// The base is then as it was. After `Failed` it is not to be used again.
    pub fn replace_game<F: Files>(
        &mut self,
        alloc: Global,
        files: &mut F,
        i: u32,
        head: &Head,
        g: &Game,
    ) -> Result<(), EditError>
        requires legal { IsLegalGame g.now }
        requires bounded { IsBounded head.now }
        requires settled { IsSettled head.now }
        requires at_end { IsEnd self.old.end (F.seen files.old) }
        ensures replaced { OnOk result (Places (written_record head.now.tags g.now) (game_replaced i head.now g.now) self.old self.new) }
        ensures count { length self.new.entries ≡ length self.old.entries }
        // What is kept of the other games stays.
        ensures others { (j : ℕ) → (j ≡ i → ⊥) → slice_get self.new.entries j ≡ slice_get self.old.entries j }
        ensures unsaved { OnOk result (self.new.unsaved ≡ true) }
        ensures appended { OnOk result (F.seen files.new ≡ appended (padded self.old.end (written_record head.now.tags g.now)) (F.seen files.old)) }
        ensures no_game { IsErrOf result (EditError.NoGame i) ↔ (length self.old.entries ≤ i) }
        ensures room { OnOk result (CanPlace (length (written_record head.now.tags g.now)) (first_full (length self.old.entries) (names_with head.now self.old.names) (end_with head.now g.now self.old.end))) }
        ensures why { IfErr result (WhyNotReplaced self.old i (length (written_record head.now.tags g.now)) (first_full (length self.old.entries) (names_with head.now self.old.names) (end_with head.now g.now self.old.end))) }
        ensures unchanged { OnErr result (self.new ≡ self.old) }
        // Each name keeps its id.
        ensures names { HoldsNames self.new.names self.old.names }
        ensures in_part { IsErrOf result EditError.Failed → AppendedInPart (F.seen files.old) (F.seen files.new) }
        ensures none_added { OnErr result (result ≢ Err EditError.Failed → F.seen files.new ≡ F.seen files.old) }
        ensures at_end { result ≢ Err EditError.Failed → IsEnd self.new.end (F.seen files.new) }
        ensures none_asked { F.asked files.new ≡ F.asked files.old }
        ensures counts { F.faults files.old ≤ F.faults files.new }
        ensures cause { IfErr result (λ error. error ≡ EditError.Failed → Rose (F.faults files.old) (F.faults files.new)) }
    {
        if self.entries.len() <= i {
            return Err(EditError::NoGame(i));
        }
        let encoded = encode_to_end(alloc, g, head.tags.as_slice())?;
        let counts = counts_of(&self.names);
        let ids = add_names(alloc, &mut self.names, head)?;
        let entry = entry_with(
            &ids,
            head,
            &sig_ending(g, &encoded.last),
            encoded.record.len() as u32,
        );
        let offset = match place_record(&mut self.store, encoded.record.as_slice(), files) {
            Ok(offset) => offset,
            Err(error) => {
                cut_names(&mut self.names, &counts);
                return Err(error);
            }
        };
        self.entries.set(i, &Entry { offset, ..entry });
        self.unsaved = true;
        Ok(())
    }

    /// Sets a tag of game `i`: the game is read into `buf`, and put in its own place with its head edited.
    ///
    /// # Errors
    ///
    /// - `NoGame` if and only if there is no game of this number.
    /// - `Changed` if the record has changed since the base was opened.
    /// - `TooLong`, `Full`, `Failed` and `Memory` as those of `replace_game`.
    ///
    /// The base is then as it was. After `Failed` it is not to be used again.
    pub fn set_tag<F: Files>(
        &mut self,
        alloc: Global,
        files: &mut F,
        buf: &mut [u8],
        i: u32,
        edit: &TagEdit,
    ) -> Result<(), EditError>
        requires room { 131072 ≤ length buf.old }
        requires edit { IsEdit edit.now }
        requires at_end { IsEnd self.old.end (F.seen files.old) }
        ensures edited { OnOk result (IsTagged i edit.now self.old self.new (F.seen files.old) (F.seen files.new) buf.new) }
        ensures tagged { OnOk result (Tags i edit.now self.old self.new (F.seen files.old).games (F.seen files.new).games) }
        ensures count { length self.new.entries ≡ length self.old.entries }
        // What is kept of the other games stays.
        ensures others { (j : ℕ) → (j ≡ i → ⊥) → slice_get self.new.entries j ≡ slice_get self.old.entries j }
        ensures unsaved { OnOk result (self.new.unsaved ≡ true) }
        ensures no_game { IsErrOf result (EditError.NoGame i) ↔ (length self.old.entries ≤ i) }
        ensures why { IfErr result (WhyNotTagged self.old (F.seen files.old).games i edit.now buf.new) }
        // If the files tell the records of a base, no game has changed.
        ensures same { IfErr result (λ error. IfChanged error (IfSome (F.seen files.old).games (λ games. (base : PlainBase) → Represents self.old games base → ⊥))) }
        ensures unchanged { OnErr result (self.new ≡ self.old) }
        // Each name keeps its id.
        ensures names { HoldsNames self.new.names self.old.names }
        ensures in_part { IsErrOf result EditError.Failed → AppendedInPart (F.seen files.old) (F.seen files.new) }
        ensures none_added { OnErr result (result ≢ Err EditError.Failed → F.seen files.new ≡ F.seen files.old) }
        ensures at_end { result ≢ Err EditError.Failed → IsEnd self.new.end (F.seen files.new) }
        ensures asks { (e : EntryValue) → slice_get self.old.entries i ≡ Some e → F.asked files.new ≤ F.asked files.old + e.len }
        ensures none_asked { IsErrOf result (EditError.NoGame i) → F.asked files.new ≡ F.asked files.old }
        ensures counts { F.faults files.old ≤ F.faults files.new }
        ensures cause { IfErr result (λ error. error ≡ EditError.Failed → Rose (F.faults files.old) (F.faults files.new)) }
    {
        let (mut head, game) = self.game(alloc, i, files, buf)?;
        apply(alloc, &mut head, edit)?;
        self.replace_game(alloc, files, i, &head, &game)
    }
}

// The entry of a game with this head and signature, whose record has so many bytes and is not placed yet.
#[tactic(auto, unfolding(crate::specs::Placing::entry_with))]
fn entry_with(ids: &NameIds, head: &Head, s: &Sig, len: u32) -> Entry
    ensures entry { result ≡ entry_with ids.now head.now s.now len 0 }
{
    Entry {
        offset: 0,
        len,
        own_start: s.own_start,
        promo: s.promo,
        under: s.under,
        deleted: head.deleted,
        marks: head.marks,
        white: ids.white,
        black: ids.black,
        event: ids.event,
        site: ids.site,
        round: ids.round,
        vars: s.vars,
        comments: s.comments,
        nags: s.nags,
        result: head.result,
        eco: head.eco,
        date: head.date,
        event_date: head.event_date,
        white_rating: head.white_rating,
        black_rating: head.black_rating,
        material: s.material,
        plies: s.plies,
        home_count: s.home.count,
        home: s.home.values,
    }
}

// Adds the entry of a game, and places its record. After an error the entries and the end are as they were.
fn add_entry<F: Files>(
    entries: &mut Entries,
    store: &mut Store,
    entry: &Entry,
    bytes: &[u8],
    files: &mut F,
) -> Result<(), EditError>
    requires room { length entries.old < 2 ^ 32 - 1 }
    requires fields { IsEntry entry.now }
    requires some { 0 < length bytes.now }
    requires short { length bytes.now ≤ 131071 }
    requires at_end { IsEnd store.old (F.seen files.old) }
    ensures added { OnOk result (entries.new ≡ entries.old ++ (record entry.now { offset = (placed_at store.old (length bytes.now)).offset }) ∷ []) }
    ensures entries { OnErr result (entries.new ≡ entries.old) }
    ensures ended { OnOk result (store.new ≡ end_after store.old (length bytes.now)) }
    ensures in_block { OnOk result (IsPlaced store.new (placed_at store.old (length bytes.now))) }
    ensures as_ended { OnErr result (store.new ≡ store.old) }
    ensures room { OnOk result (or_file None (end_after store.old (length bytes.now)) ≡ None) }
    ensures why { IfErr result (WhyNotPlaced (length bytes.now) (or_file None (end_after store.old (length bytes.now)))) }
    ensures appended { OnOk result (F.seen files.new ≡ appended (padded store.old bytes.now) (F.seen files.old)) }
    ensures in_part { IsErrOf result EditError.Failed → AppendedInPart (F.seen files.old) (F.seen files.new) }
    ensures none_added { OnErr result (result ≢ Err EditError.Failed → F.seen files.new ≡ F.seen files.old) }
    ensures at_end { result ≢ Err EditError.Failed → IsEnd store.new (F.seen files.new) }
    ensures none_asked { F.asked files.new ≡ F.asked files.old }
    ensures counts { F.faults files.old ≤ F.faults files.new }
    ensures cause { IfErr result (λ error. error ≡ EditError.Failed → Rose (F.faults files.old) (F.faults files.new)) }
{
    let i = entries.len();
    entries.push(entry)?;
    match place_record(store, bytes, files) {
        Ok(offset) => {
            entries.set(i, &Entry { offset, ..*entry });
            Ok(())
        }
        Err(error) => {
            entries.truncate(i);
            Err(error)
        }
    }
}

// Places a record, and gives the place where it begins.
fn place_record<F: Files>(store: &mut Store, bytes: &[u8], files: &mut F) -> Result<u32, EditError>
    requires some { 0 < length bytes.now }
    requires short { length bytes.now ≤ 131071 }
    requires at_end { IsEnd store.old (F.seen files.old) }
    ensures offset { IfOk result (λ offset. offset ≡ (placed_at store.old (length bytes.now)).offset) }
    ensures ended { OnOk result (store.new ≡ end_after store.old (length bytes.now)) }
    ensures in_block { OnOk result (IsPlaced store.new (placed_at store.old (length bytes.now))) }
    ensures as_ended { OnErr result (store.new ≡ store.old) }
    ensures room { OnOk result (or_file None (end_after store.old (length bytes.now)) ≡ None) }
    ensures why { IfErr result (WhyNotPlaced (length bytes.now) (or_file None (end_after store.old (length bytes.now)))) }
    ensures appended { OnOk result (F.seen files.new ≡ appended (padded store.old bytes.now) (F.seen files.old)) }
    ensures in_part { IsErrOf result EditError.Failed → AppendedInPart (F.seen files.old) (F.seen files.new) }
    ensures none_added { OnErr result (result ≢ Err EditError.Failed → F.seen files.new ≡ F.seen files.old) }
    ensures at_end { result ≢ Err EditError.Failed → IsEnd store.new (F.seen files.new) }
    ensures none_asked { F.asked files.new ≡ F.asked files.old }
    ensures counts { F.faults files.old ≤ F.faults files.new }
    ensures cause { IfErr result (λ error. error ≡ EditError.Failed → Rose (F.faults files.old) (F.faults files.new)) }
{
    match store.place(bytes, files) {
        Ok(extent) => Ok(extent.offset as u32),
        Err(error) => Err(EditError::from(error)),
    }
}
