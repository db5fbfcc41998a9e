//! The marks and the opening codes of the games of an open base.
ghost use Rattle.std.specs.Prelude.{◌≡◌, ℕ, ◌<◌, ◌≤◌, ◌^◌, ◌↔◌, Some, true, length, slice_get, slice_set, IfOk, IfErr, OnOk, OnErr, IsErr};
ghost use Rattle.base_core.specs.Edited.{ChangedHeads, Does};
ghost use Rattle.base_core.specs.Edits.{classified, deleted, marked, undeleted, with_mark};
ghost use Rattle.base_core.specs.Represents.{IsKept};

use crate::base::Base;
use crate::fault::NoGame;
use index_entry::Entry;

impl Base {
    /// Marks game `i` as deleted.
    ///
    /// # Errors
    ///
    /// `NoGame` if and only if there is no game of this number.
    pub fn delete(&mut self, i: u32) -> Result<(), NoGame>
        ensures deleted { OnOk result (Does (deleted i) self.old self.new) }
        ensures heads { OnOk result (ChangedHeads self.old self.new) }
        // What is kept of the other games stays.
        ensures others { (j : ℕ) → (j ≡ i → ⊥) → slice_get self.new.entries j ≡ slice_get self.old.entries j }
        ensures no_game { IsErr result ↔ (length self.old.entries ≤ i) }
        ensures which { IfErr result (λ error. error.game ≡ i) }
        ensures unchanged { OnErr result (self.new ≡ self.old) }
    {
        let entry = self.entry_there(i)?;
        self.put_facts(i, &entry, true, entry.marks, entry.eco);
        Ok(())
    }

    /// Takes the mark of a deleted game from game `i`.
    ///
    /// # Errors
    ///
    /// `NoGame` if and only if there is no game of this number.
    pub fn undelete(&mut self, i: u32) -> Result<(), NoGame>
        ensures undeleted { OnOk result (Does (undeleted i) self.old self.new) }
        ensures heads { OnOk result (ChangedHeads self.old self.new) }
        // What is kept of the other games stays.
        ensures others { (j : ℕ) → (j ≡ i → ⊥) → slice_get self.new.entries j ≡ slice_get self.old.entries j }
        ensures no_game { IsErr result ↔ (length self.old.entries ≤ i) }
        ensures which { IfErr result (λ error. error.game ≡ i) }
        ensures unchanged { OnErr result (self.new ≡ self.old) }
    {
        let entry = self.entry_there(i)?;
        self.put_facts(i, &entry, false, entry.marks, entry.eco);
        Ok(())
    }

    /// Sets a mark of game `i`, or takes it away: a user mark by the bits 0 to 11, a custom mark by the bits 12 to 17.
    ///
    /// # Errors
    ///
    /// `NoGame` if and only if there is no game of this number.
    pub fn mark(&mut self, i: u32, bit: u8, on: bool) -> Result<(), NoGame>
        requires mark { bit < 18 }
        ensures marked { OnOk result (Does (marked i bit on) self.old self.new) }
        ensures heads { OnOk result (ChangedHeads self.old self.new) }
        // What is kept of the other games stays.
        ensures others { (j : ℕ) → (j ≡ i → ⊥) → slice_get self.new.entries j ≡ slice_get self.old.entries j }
        ensures no_game { IsErr result ↔ (length self.old.entries ≤ i) }
        ensures which { IfErr result (λ error. error.game ≡ i) }
        ensures unchanged { OnErr result (self.new ≡ self.old) }
    {
        let entry = self.entry_there(i)?;
        let marks = with_mark(entry.marks, bit, on);
        self.put_facts(i, &entry, entry.deleted, marks, entry.eco);
        Ok(())
    }

    /// Gives game `i` this opening code, at most 65,500; 0 is none.
    ///
    /// # Errors
    ///
    /// `NoGame` if and only if there is no game of this number.
    pub fn set_eco(&mut self, i: u32, eco: u16) -> Result<(), NoGame>
        requires eco { eco ≤ 65500 }
        ensures classified { OnOk result (Does (classified i eco) self.old self.new) }
        ensures heads { OnOk result (ChangedHeads self.old self.new) }
        // What is kept of the other games stays.
        ensures others { (j : ℕ) → (j ≡ i → ⊥) → slice_get self.new.entries j ≡ slice_get self.old.entries j }
        ensures no_game { IsErr result ↔ (length self.old.entries ≤ i) }
        ensures which { IfErr result (λ error. error.game ≡ i) }
        ensures unchanged { OnErr result (self.new ≡ self.old) }
    {
        let entry = self.entry_there(i)?;
        self.put_facts(i, &entry, entry.deleted, entry.marks, eco);
        Ok(())
    }

    // What is kept of game `i`, if there is one.
    pub(crate) fn entry_there(&self, i: u32) -> Result<Entry, NoGame>
        ensures at { IfOk result (λ entry. slice_get self.now.entries i ≡ Some entry) }
        ensures kept { IfOk result (IsKept self.now.names self.now.end) }
        ensures there { OnOk result (i < length self.now.entries) }
        ensures no_game { IfErr result (λ error. (error.game ≡ i) × (length self.now.entries ≤ i)) }
    {
        if self.entries.len() <= i {
            return Err(NoGame { game: i });
        }
        Ok(self.entry(i))
    }

    // Puts these marks and this opening code into the entry of game `i`.
    fn put_facts(&mut self, i: u32, entry: &Entry, deleted: bool, marks: u32, eco: u16)
        requires at { slice_get self.old.entries i ≡ Some entry.now }
        requires few { marks < 2 ^ 18 }
        requires low { eco ≤ 65500 }
        ensures put { self.new ≡ record self.old { entries = slice_set self.old.entries i (record entry.now { deleted = deleted; marks = marks; eco = eco }); unsaved = true } }
    {
        let changed = Entry {
            deleted,
            marks,
            eco,
            ..*entry
        };
        self.entries.set(i, &changed);
        self.unsaved = true;
    }
}

// The marks with this one on or off.
#[tactic(auto, unfolding(crate::specs::Edits::with_mark))]
fn with_mark(marks: u32, bit: u8, on: bool) -> u32
    requires few { marks < 2 ^ 18 }
    requires mark { bit < 18 }
    ensures marks { result ≡ with_mark marks bit on }
    ensures few { result < 2 ^ 18 }
{
    let one = 1u32 << bit;
    let above = marks / (one * 2) * (one * 2);
    let this = if on { one } else { 0 };
    above + this + marks % one
}
