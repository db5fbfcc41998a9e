//! A base that is made of games of another one, without a byte of its files.
ghost use Rattle.std.specs.Prelude.{◌≡◌, ◌≤◌, ◌<◌, ◌↔◌, ◌+◌, List, ℕ, [], Some, length, IfOk, IfErr, OnOk, OnErr, IsErrOf};
ghost use Rattle.block_store.specs.Placing.{end_after, longest_file, padding};
ghost use Rattle.index_entry.specs.Entry.{IsEntry};
ghost use Rattle.index_entry.specs.Index.{IsIndexHead};
ghost use Rattle.name_base.specs.PartNames.{filled_names};
ghost use Rattle.base_core.specs.Base.{Base as PlainBase};
ghost use Rattle.base_core.specs.Drafts.{AreNamesOf, Grows, Takes, TakesOver, begun, emptied, length_at, placed_entry};
ghost use Rattle.base_core.specs.Edited.{full_names, or_file};
ghost use Rattle.base_core.specs.Edits.{names_with};
ghost use Rattle.base_core.specs.Entries.{head_of};
ghost use Rattle.base_core.specs.Placing.{IfFull};
ghost use Rattle.base_core.specs.Represents.{Represents};
ghost use Rattle.base_core.specs.Saved.{OpensAgain, Writes};

use crate::base::Base;
use crate::entries::Entries;
use crate::fault::{DraftError, EditError, What};
use crate::naming::{NameIds, counts_of, cut_names};
use crate::taking::{take_names, take_part};
use block_store::{LONGEST_FILE, Store, padding};
use index_entry::{Entry, IndexHead};
use name_base::{Names, PartNames};
use std::alloc::{AllocError, Global};
use std::marker::Model;

/// A base that takes over games of an open base one by one. It has their heads, the names that they use, and the places
/// that their records are to have in a new games file.
#[derive(Drop)]
pub struct Draft {
    base: Base,
}

impl Model for Draft {
    ghost use Rattle.base_core.specs.Represents.{Kept};

    ghost Value = { Kept };

    ghost view = { λ draft. draft.base };
}

impl Draft {
    /// A draft of no games, with what the index of the base says of the whole base.
    pub fn new(alloc: Global, base: &Base) -> Draft
        ensures empty { result ≡ emptied base.now }
    {
        let header = IndexHead {
            games: 0,
            ..*base.header()
        };
        Draft {
            base: Base::of(header, Names::new(alloc), Entries::new(alloc), 0),
        }
    }

    /// A draft of no games, with what this header says of the whole base.
    pub fn begin(alloc: Global, header: &IndexHead) -> Draft
        requires header { IsIndexHead header.now }
        ensures empty { result ≡ begun header.now }
    {
        let header = IndexHead {
            games: 0,
            ..*header
        };
        Draft {
            base: Base::of(header, Names::new(alloc), Entries::new(alloc), 0),
        }
    }

    /// The number of its games.
    pub fn len(&self) -> u32
        ensures len { result ≡ length self.now.entries }
    {
        self.base.entries.len()
    }

    /// Takes the game of an entry whose derived fields are those of its record, with the names of its ids, and `?` for
    /// each id without a name. Gives the number of zero bytes before its record.
    ///
    /// # Errors
    ///
    /// - `Full` if the names of a kind or the games file would pass their limit, with the first of them in this order.
    /// - `Memory` for want of memory.
    ///
    /// The draft is then as it was.
    pub fn take(&mut self, alloc: Global, of: &PartNames, e: &Entry) -> Result<u32, EditError>
        requires fields { IsEntry e.now }
        requires homes { e.now.home_count ≤ 16 }
        requires few { length self.old.entries < 16777214 }
        ensures taken { OnOk result (Takes (filled_names of.now) e.now self.old self.new) }
        ensures grown { OnOk result (Grows e.now.len self.old self.new) }
        ensures names { OnOk result (self.new.names ≡ names_with (head_of (filled_names of.now) e.now []) self.old.names) }
        ensures pad { IfOk result (λ pad. pad ≡ padding self.old.end e.now.len) }
        ensures why { IfErr result (IfFull (λ what. or_file (full_names (names_with (head_of (filled_names of.now) e.now []) self.old.names)) (end_after self.old.end e.now.len) ≡ Some what)) }
        ensures unchanged { OnErr result (self.new ≡ self.old) }
    {
        self.base.take(alloc, of, e)
    }

    /// Takes over game `i` of the base, and gives the number of zero bytes before its record.
    ///
    /// # Errors
    ///
    /// - `Full` if its record would end behind 4,294,967,295 bytes, and only then.
    /// - `Memory` for want of memory.
    ///
    /// The draft is then as it was.
    pub fn push(&mut self, alloc: Global, base: &Base, i: u32) -> Result<u32, DraftError>
        requires there { i < length base.now.entries }
        requires few { length self.old.entries ≤ i }
        requires names { AreNamesOf self.old.names base.now.names }
        ensures taken { OnOk result (TakesOver i base.now self.old self.new) }
        ensures grown { OnOk result (Grows (length_at i base.now) self.old self.new) }
        ensures pad { IfOk result (λ pad. pad ≡ padding self.old.end (length_at i base.now)) }
        ensures names { AreNamesOf self.new.names base.now.names }
        ensures full { IsErrOf result DraftError.Full ↔ (longest_file < end_after self.old.end (length_at i base.now)) }
        ensures unchanged { OnErr result (self.new ≡ self.old) }
    {
        self.base.take_over(alloc, base, i)
    }

    /// The bytes of the names file and of the index.
    pub fn write(&self, alloc: Global) -> Result<(Vec<u8>, Vec<u8>), AllocError>
        ensures written { IfOk result (λ texts. Writes self.now texts.1.items texts.0.items) }
        // With a games file beside which the draft stands for a base they mean it, and open again as it.
        ensures means { IfOk result (λ texts. (games : List ℕ) (base : PlainBase) → self.now.end ≡ length games → Represents self.now games base
            → OpensAgain texts.1.items texts.0.items games base) }
    {
        // Reading the header makes the bounds of the draft known.
        let _header = self.base.header();
        let names = self.base.names_text(alloc)?;
        let index = self.base.index_text(alloc)?;
        Ok((names, index))
    }
}

impl Base {
    /// The draft takes the place of the base: nothing is unsaved then.
    pub fn adopt(&mut self, draft: Draft)
        ensures adopted { self.new ≡ draft }
    {
        *self = draft.base;
    }

    // Takes over a game of another base, as `Draft::push` says.
    fn take_over(&mut self, alloc: Global, of: &Base, i: u32) -> Result<u32, DraftError>
        requires there { i < length of.now.entries }
        requires few { length self.old.entries ≤ i }
        requires names { AreNamesOf self.old.names of.now.names }
        ensures taken { OnOk result (TakesOver i of.now self.old self.new) }
        ensures grown { OnOk result (Grows (length_at i of.now) self.old self.new) }
        ensures pad { IfOk result (λ pad. pad ≡ padding self.old.end (length_at i of.now)) }
        ensures names { AreNamesOf self.new.names of.now.names }
        ensures full { IsErrOf result DraftError.Full ↔ (longest_file < end_after self.old.end (length_at i of.now)) }
        ensures unchanged { OnErr result (self.new ≡ self.old) }
    {
        // Reading the header makes the bounds of the other base known.
        let _header = of.header();
        let entry = of.entry(i);
        let len = u64::from(entry.len);
        let pad = padding(self.store.end(), len);
        let end = self.store.end().saturating_add(u64::from(pad) + len);
        if end > LONGEST_FILE {
            return Err(DraftError::Full);
        }
        let counts = counts_of(&self.names);
        let ids = take_names(alloc, &mut self.names, of.names(), &entry)?;
        let placed = placed_entry(&entry, &ids, (end - len) as u32);
        if let Err(refused) = self.entries.push(&placed) {
            cut_names(&mut self.names, &counts);
            return Err(DraftError::from(refused));
        }
        self.header.games += 1;
        self.store = Store::new(end);
        Ok(pad)
    }
}

impl Base {
    // Takes a game by its entry, as `Draft::take` says.
    fn take(&mut self, alloc: Global, of: &PartNames, e: &Entry) -> Result<u32, EditError>
        requires fields { IsEntry e.now }
        requires homes { e.now.home_count ≤ 16 }
        requires few { length self.old.entries < 16777214 }
        ensures taken { OnOk result (Takes (filled_names of.now) e.now self.old self.new) }
        ensures grown { OnOk result (Grows e.now.len self.old self.new) }
        ensures names { OnOk result (self.new.names ≡ names_with (head_of (filled_names of.now) e.now []) self.old.names) }
        ensures pad { IfOk result (λ pad. pad ≡ padding self.old.end e.now.len) }
        ensures why { IfErr result (IfFull (λ what. or_file (full_names (names_with (head_of (filled_names of.now) e.now []) self.old.names)) (end_after self.old.end e.now.len) ≡ Some what)) }
        ensures unchanged { OnErr result (self.new ≡ self.old) }
    {
        let counts = counts_of(&self.names);
        let ids = take_part(alloc, &mut self.names, of, e)?;
        let len = u64::from(e.len);
        let pad = padding(self.store.end(), len);
        let end = self.store.end().saturating_add(u64::from(pad) + len);
        if end > LONGEST_FILE {
            cut_names(&mut self.names, &counts);
            return Err(EditError::Full(What::File));
        }
        let placed = placed_entry(e, &ids, (end - len) as u32);
        if let Err(refused) = self.entries.push(&placed) {
            cut_names(&mut self.names, &counts);
            return Err(EditError::from(refused));
        }
        self.header.games += 1;
        self.store = Store::new(end);
        Ok(pad)
    }
}

// The entry with these ids, and its record beginning there.
#[tactic(auto, unfolding(crate::specs::Drafts::placed_entry))]
fn placed_entry(e: &Entry, ids: &NameIds, offset: u32) -> Entry
    ensures entry { result ≡ placed_entry e.now ids.now offset }
{
    Entry {
        offset,
        white: ids.white,
        black: ids.black,
        event: ids.event,
        site: ids.site,
        round: ids.round,
        ..*e
    }
}
