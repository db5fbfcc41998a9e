//! Reading a game of an open base.
ghost use Rattle.std.specs.Prelude.{◌≡◌, ◌≤◌, ◌<◌, ◌+◌, ◌↔◌, ◌^◌, All, List, Some, length, slice_get, IfOk, IfErr, IfSome, IsErrOf, OnOk};
ghost use Rattle.base_files.specs.Counters.{Rose, raised};
ghost use Rattle.game_tree.specs.Head.{HasTexts, IsBounded, IsName, IsTag, head_of as fields_with};
ghost use Rattle.game_tree.specs.Legal.{IsLegalGame};
ghost use Rattle.game_tree.specs.Settle.{IsSettled, settled};
ghost use Rattle.game_tree.specs.declared.head.Tag.{Tag as TagValue};
ghost use Rattle.game_codec.specs.Record.{IsRecord};
ghost use Rattle.index_entry.specs.Entry.{IsEntry};
ghost use Rattle.index_entry.specs.declared.entry.Entry.{Entry as EntryValue};
ghost use Rattle.name_base.specs.NameLists.{AreSound, of_kind};
ghost use Rattle.sig_index.specs.Signature.{IsSig};
ghost use Rattle.base_core.specs.Base.{Base as PlainBase};
ghost use Rattle.base_core.specs.Entries.{HasNames, extent_of, head_of, name_at, sig_in};
ghost use Rattle.base_core.specs.GameAt.{IfChanged, IsGameAt, IsRecordOf, IsRecordWith, IsShown, IsStillOfGame, SaysWhy, TellsChange};
ghost use Rattle.base_core.specs.Represents.{Represents};

use crate::base::Base;
use crate::checking::differing;
use crate::fault::{EditError, unread_error};
use base_files::{Extent, Files};
use game_codec::{Decoded, MainPlace, decode_game};
use game_tree::{Game, Head, HeadRef, Tag, Tags, settle};
use index_entry::Entry;
use name_base::{NameKind, Names};
use sig_index::{HomeList, Sig, sig_ending, signed};
use std::alloc::{AllocError, Global};

impl Base {
    /// Gives the head and the game of a number. The record is read into `buf`, whose first bytes it then is.
    ///
    /// # Errors
    ///
    /// - `NoGame` if and only if there is no game of this number.
    /// - `Changed` if the record has changed since the base was opened.
    /// - `Failed` if the files fail.
    /// - `Memory` for want of memory.
    pub fn game<F: Files>(
        &self,
        alloc: Global,
        i: u32,
        files: &mut F,
        buf: &mut [u8],
    ) -> Result<(Head, Game), EditError>
        requires room { 131072 ≤ length buf.old }
        requires within { self.now.end ≤ (F.seen files.old).known }
        ensures found { IfOk result (λ read. IfSome (F.seen files.old).games (λ games. IsGameAt self.now games i read.0 read.1)) }
        // Whatever the files hold, what was read is a record of this game, which has the signature that is kept.
        ensures shown { IfOk result (λ read. IsShown self.now i buf.new read.0 read.1) }
        ensures no_game { IsErrOf result (EditError.NoGame i) ↔ (length self.now.entries ≤ i) }
        ensures why { IfErr result (SaysWhy self.now (F.seen files.old).games i buf.new) }

        // Where the files tell the records of a base, no game has changed.
        ensures unchanged { IfErr result (λ error. IfChanged error (IfSome (F.seen files.old).games (λ games. (base : PlainBase) → Represents self.now games base → ⊥))) }

        // Whatever the files hold, the game is legal, and the head is settled and within its bounds.
        ensures legal { IfOk result (λ read. IsLegalGame read.1) }
        ensures bounded { IfOk result (λ read. IsBounded read.0) }
        ensures settled { IfOk result (λ read. IsSettled read.0) }
        ensures cause { IfErr result (λ error. error ≡ EditError.Failed → Rose (F.faults files.old) (F.faults files.new)) }
        ensures counts { F.faults files.old ≤ F.faults files.new }
        ensures asks { (e : EntryValue) → slice_get self.now.entries i ≡ Some e → F.asked files.new ≤ F.asked files.old + e.len }
        ensures asked { (e : EntryValue) → slice_get self.now.entries i ≡ Some e → OnOk result (raised (F.asked files.old) e.len ≤ F.asked files.new) }
        ensures none_asked { IsErrOf result (EditError.NoGame i) → F.asked files.new ≡ F.asked files.old }
        ensures same_files { F.seen files.new ≡ F.seen files.old }
    {
        if self.entries.len() <= i {
            return Err(EditError::NoGame(i));
        }
        let entry = self.entry(i);
        if self.store.fetch(extent_of(&entry), files, buf).is_err() {
            return Err(EditError::Failed);
        }
        let (game, tags) = match read_unchanged(alloc, i, &entry, &buf[..entry.len as usize]) {
            Ok(read) => read,
            Err(error) => return Err(error),
        };
        let head = settled_head(alloc, &self.names, &entry, tags)?;
        Ok((head, game))
    }

    /// Reads the record of game `i` into the front of `buf`, and gives its length.
    ///
    /// # Errors
    ///
    /// `Changed` where the record has changed since the base was opened, and `Failed` where the files fail.
    pub fn read_record<F: Files>(
        &self,
        i: u32,
        files: &mut F,
        buf: &mut [u8],
    ) -> Result<u32, EditError>
        requires there { i < length self.now.entries }
        requires room { 131072 ≤ length buf.old }
        requires within { self.now.end ≤ (F.seen files.old).known }
        ensures read { IfOk result (λ len. IsRecordOf self.now (F.seen files.old).games i len buf.new) }
        ensures still { OnOk result (IsStillOfGame self.now i buf.new) }
        ensures short { IfOk result (λ len. len ≤ 131071) }
        ensures why { IfErr result (SaysWhy self.now (F.seen files.old).games i buf.new) }

        // Where the files tell the records of a base, no game has changed.
        ensures unchanged { IfErr result (λ error. IfChanged error (IfSome (F.seen files.old).games (λ games. (base : PlainBase) → Represents self.now games base → ⊥))) }
        ensures cause { IfErr result (λ error. error ≡ EditError.Failed → Rose (F.faults files.old) (F.faults files.new)) }
        ensures counts { F.faults files.old ≤ F.faults files.new }
        ensures asks { (e : EntryValue) → slice_get self.now.entries i ≡ Some e → F.asked files.new ≤ F.asked files.old + e.len }
        ensures asked { (e : EntryValue) → slice_get self.now.entries i ≡ Some e → OnOk result (raised (F.asked files.old) e.len ≤ F.asked files.new) }
        ensures same_files { F.seen files.new ≡ F.seen files.old }
    {
        let entry = self.entry(i);
        if self.store.fetch(extent_of(&entry), files, buf).is_err() {
            return Err(EditError::Failed);
        }
        match check_unchanged(i, &entry, &buf[..entry.len as usize]) {
            Ok(()) => Ok(entry.len),
            Err(error) => Err(error),
        }
    }
}

// Where the record of an entry stands.
fn extent_of(e: &Entry) -> Extent
    ensures extent { result ≡ extent_of e.now }
{
    Extent {
        offset: u64::from(e.offset),
        len: e.len,
    }
}

// The signature that an entry has.
fn sig_in(e: &Entry) -> Sig
    ensures sig { result ≡ sig_in e.now }
{
    Sig {
        material: e.material,
        home: HomeList {
            count: e.home_count,
            values: e.home,
        },
        plies: e.plies,
        promo: e.promo,
        under: e.under,
        own_start: e.own_start,
        vars: e.vars,
        comments: e.comments,
        nags: e.nags,
    }
}

// Whether the bytes are still a record of a game with the signature of its entry.
fn check_unchanged(i: u32, e: &Entry, bytes: &[u8]) -> Result<(), EditError>
    requires few { length bytes.now < 2 ^ 32 }
    ensures same { OnOk result (IsRecordWith bytes.now (sig_in e.now)) }
    ensures why { IfErr result (TellsChange i (sig_in e.now) bytes.now) }
{
    let sig = match signed(bytes, &mut MainPlace::new()) {
        Ok(sig) => sig,
        Err(_) => {
            return Err(EditError::Changed {
                game: i,
                kept: sig_in(e),
                found: None,
            });
        }
    };
    if differing(e, &sig).is_some() {
        return Err(EditError::Changed {
            game: i,
            kept: sig_in(e),
            found: Some(sig),
        });
    }
    Ok(())
}

// The game and the tags of the record of game `i`, where the game has the signature of its entry.
fn read_unchanged(
    alloc: Global,
    i: u32,
    e: &Entry,
    bytes: &[u8],
) -> Result<(Game, Vec<Tag>), EditError>
    requires few { length bytes.now < 2 ^ 32 }
    ensures read { IfOk result (λ read. IsRecord bytes.now read.1.items read.0) }
    ensures same { IfOk result (λ read. IsSig read.0 (sig_in e.now)) }
    ensures legal { IfOk result (λ read. IsLegalGame read.0) }
    ensures tags { IfOk result (λ read. All IsTag read.1.items) }
    ensures why { IfErr result (TellsChange i (sig_in e.now) bytes.now) }
{
    let Decoded { game, tags, last } = match decode_game(alloc, bytes) {
        Ok(decoded) => decoded,
        Err(error) => return Err(unread_error(i, sig_in(e), error)),
    };
    let found = sig_ending(&game, last.setup());
    if differing(e, &found).is_some() {
        return Err(EditError::Changed {
            game: i,
            kept: sig_in(e),
            found: Some(found),
        });
    }
    Ok((game, tags))
}

// The settled head of an entry and these tags.
fn settled_head(alloc: Global, names: &Names, e: &Entry, tags: Vec<Tag>) -> Result<Head, AllocError>
    requires fields { IsEntry e.now }
    requires named { HasNames names.now e.now }
    requires sound { AreSound names.now }
    requires tags { All IsTag tags.items }
    ensures head { IfOk result (λ head. head ≡ settled (head_of names.now e.now tags.items)) }
    ensures bounded { IfOk result IsBounded }
    ensures settled { IfOk result IsSettled }
{
    let mut head = Head::of(alloc, fields_of(names, e), Tags::from_vec(tags))?;
    settle(alloc, &mut head)?;
    Ok(head)
}

/// The head of an entry, without its tags.
pub(crate) fn fields_of<'a>(names: &'a Names, e: &Entry) -> HeadRef<'a>
    requires fields { IsEntry e.now }
    requires named { HasNames names.now e.now }
    requires sound { AreSound names.now }
    ensures bounded { (given : List TagValue) → All IsTag given → IsBounded (head_of names.now e.now given) }
    ensures fields { (given : List TagValue) → fields_with result given ≡ head_of names.now e.now given }
    ensures texts { HasTexts result }
{
    HeadRef {
        white: name_of(names, NameKind::Player, e.white),
        black: name_of(names, NameKind::Player, e.black),
        event: name_of(names, NameKind::Event, e.event),
        site: name_of(names, NameKind::Site, e.site),
        round: name_of(names, NameKind::Round, e.round),
        date: e.date,
        event_date: e.event_date,
        result: e.result,
        white_rating: e.white_rating,
        black_rating: e.black_rating,
        eco: e.eco,
        marks: e.marks,
        deleted: e.deleted,
    }
}

/// The name with an id.
pub(crate) fn name_of(names: &Names, kind: NameKind, id: u32) -> &[u8]
    requires below { id < length (of_kind kind names.now) }
    requires sound { AreSound names.now }
    ensures name { result.now ≡ name_at (of_kind kind names.now) id }
    ensures bounded { IsName result.now }
{
    names.name_of(kind, id)
}
