//! Saving an open base.
ghost use Rattle.std.specs.Prelude.{◌≡◌, ◌≤◌, false, Ok, IfOk, IfErr, OnOk, OnErr};
ghost use Rattle.base_files.specs.Counters.{Rose};
ghost use Rattle.block_store.specs.Placing.{IsEnd};
ghost use Rattle.index_entry.specs.Index.{index_read};
ghost use Rattle.name_base.specs.NamesText.{IsNamesText};
ghost use Rattle.base_core.specs.Saved.{IsIndexOf, IsLeft, IsSaved, MeansIt, StillCarries, with_parts};
ghost use Rattle.base_core.specs.Uses.{frequencies_of};

use crate::base::Base;
use crate::fault::SaveError;
use crate::uses::uses_of;
use base_files::{Files, Part};
use index_entry::write_index;
use name_base::write_names;
use std::alloc::{AllocError, Global};

impl Base {
    /// Writes the names file and then the index, each whole.
    ///
    /// # Errors
    ///
    /// `Failed` if the files fail, and `Memory`. The changes are then as unsaved as they were, and the files carry the base that they
    /// carried.
    pub fn save<F: Files>(&mut self, alloc: Global, files: &mut F) -> Result<(), SaveError>
        requires at_end { IsEnd self.old.end (F.seen files.old) }
        ensures saved { OnOk result (IsSaved self.old (F.seen files.old) (F.seen files.new)) }
        ensures kept { OnOk result (self.new ≡ record self.old { unsaved = false }) }
        // The files mean the base, and open again as it.
        ensures means { OnOk result (MeansIt self.new (F.seen files.new)) }
        ensures unchanged { OnErr result (self.new ≡ self.old) }
        ensures left { OnErr result (IsLeft self.old (F.seen files.old) (F.seen files.new)) }
        // A fault between the two parts leaves what the files carried.
        ensures carries { OnErr result (StillCarries self.old (F.seen files.old) (F.seen files.new)) }
        ensures rest { F.seen files.new ≡ with_parts (F.seen files.old) (F.seen files.new) }
        ensures at_end { IsEnd self.new.end (F.seen files.new) }
        ensures none_asked { F.asked files.new ≡ F.asked files.old }
        ensures counts { F.faults files.old ≤ F.faults files.new }
        ensures cause { IfErr result (λ error. error ≡ SaveError.Failed → Rose (F.faults files.old) (F.faults files.new)) }
    {
        let names = self.names_text(alloc)?;
        let index = self.index_text(alloc)?;
        files.replace(Part::Names, names.as_slice())?;
        files.replace(Part::Index, index.as_slice())?;
        self.unsaved = false;
        Ok(())
    }

    // The names file.
    pub(crate) fn names_text(&self, alloc: Global) -> Result<Vec<u8>, AllocError>
        ensures names { IfOk result (λ text. IsNamesText self.now.names (frequencies_of self.now.names self.now.entries) text.items) }
    {
        let uses = uses_of(alloc, &self.names, &self.entries)?;
        write_names(
            alloc,
            &self.names,
            uses.players(),
            uses.events(),
            uses.sites(),
            uses.rounds(),
        )
    }

    // The index.
    pub(crate) fn index_text(&self, alloc: Global) -> Result<Vec<u8>, AllocError>
        ensures index { IfOk result (λ text. IsIndexOf self.now text.items) }
        ensures read_again { IfOk result (λ text. index_read text.items ≡ Ok self.now.header) }
    {
        write_index(alloc, &self.header, self.entries.as_bytes())
    }
}
