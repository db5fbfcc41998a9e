//! The games of an open base, as searches see them.
ghost use Rattle.std.specs.Prelude.{◌≡◌, ◌≤◌, ◌<◌, [], Some, length, slice_get};
ghost use Rattle.index_entry.specs.Entry.{entry_in};
ghost use Rattle.name_base.specs.NameLists.{AreSound};
ghost use Rattle.sig_index.specs.Games.{extent_in, head_in, name_in, plies_in};
ghost use Rattle.base_core.specs.Entries.{HasNames, head_of};
ghost use Rattle.base_core.specs.Represents.{IsKept, extents_of, heads_of, sigs_of};

use crate::base::Base;
use crate::game::{fields_of, name_of};
use base_files::{Extent, Files};
use game_tree::{Date, HeadRef, Outcome, Rating};
use index_entry::{
    ENTRY_LEN, black_in, black_rating_in, date_in, eco_in, event_in, is_deleted_in, marks_in,
    outcome_in, place_of, plies_in, round_in, site_in, white_in, white_rating_in,
};
use name_base::{NameKind, Names};
use sig_index::{Brief, FetchError, Games, HeadName, Sig};

impl Base {
    // Where the record of game `i` stands.
    fn place(&self, i: u32) -> Extent
        requires there { i < length self.now.entries }
        ensures place { result ≡ extent_in (extents_of self.now) i }
        ensures short { result.len ≤ 131071 }
    {
        let (offset, len) = place_of(self.packed(i));
        Extent {
            offset: u64::from(offset),
            len,
        }
    }

    // The 47 bytes of the entry of game `i`, in which searches read one field after the other.
    fn packed(&self, i: u32) -> &[u8; ENTRY_LEN]
        requires there { i < length self.now.entries }
        ensures at { slice_get self.now.entries i ≡ Some (entry_in result.now) }
        ensures kept { IsKept self.now.names self.now.end (entry_in result.now) }
        ensures head { head_in (heads_of self.now) i ≡ head_of self.now.names (entry_in result.now) [] }
        ensures plies { plies_in (sigs_of self.now) i ≡ (entry_in result.now).plies }
        ensures named { HasNames self.now.names (entry_in result.now) }
    {
        self.entries.packed(i)
    }
}

// One of the names of an entry of 47 bytes.
#[tactic(auto, unfolding(crate::specs::Entries::head_of))]
fn entry_name<'a>(names: &'a Names, packed: &[u8; ENTRY_LEN], which: HeadName) -> &'a [u8]
    requires named { HasNames names.now (entry_in packed.now) }
    requires sound { AreSound names.now }
    ensures name { result.now ≡ name_in which (head_of names.now (entry_in packed.now) []) }
{
    match which {
        HeadName::White => name_of(names, NameKind::Player, white_in(packed)),
        HeadName::Black => name_of(names, NameKind::Player, black_in(packed)),
        HeadName::Event => name_of(names, NameKind::Event, event_in(packed)),
        HeadName::Site => name_of(names, NameKind::Site, site_in(packed)),
        HeadName::Round => name_of(names, NameKind::Round, round_in(packed)),
    }
}

impl Games for Base {
    ghost heads = { heads_of };

    ghost sigs = { sigs_of };

    ghost extents = { extents_of };

    fn len(&self) -> u32 {
        self.entries.len()
    }

    fn sig(&self, i: u32) -> Sig {
        self.brief(i).whole()
    }

    fn brief(&self, i: u32) -> Brief<'_> {
        Brief::new(self.packed(i))
    }

    fn head(&self, i: u32) -> HeadRef<'_> {
        fields_of(&self.names, &self.entry(i))
    }

    #[tactic(auto, unfolding(crate::specs::Entries::head_of))]
    fn name(&self, i: u32, which: HeadName) -> &[u8] {
        entry_name(&self.names, self.packed(i), which)
    }

    #[tactic(auto, unfolding(crate::specs::Entries::head_of))]
    fn is_deleted(&self, i: u32) -> bool {
        is_deleted_in(self.packed(i))
    }

    #[tactic(auto, unfolding(crate::specs::Entries::head_of))]
    fn marks(&self, i: u32) -> u32 {
        marks_in(self.packed(i))
    }

    #[tactic(auto, unfolding(crate::specs::Entries::head_of))]
    fn outcome(&self, i: u32) -> Outcome {
        outcome_in(self.packed(i))
    }

    #[tactic(auto, unfolding(crate::specs::Entries::head_of))]
    fn date(&self, i: u32) -> Date {
        date_in(self.packed(i))
    }

    #[tactic(auto, unfolding(crate::specs::Entries::head_of))]
    fn white_rating(&self, i: u32) -> Rating {
        white_rating_in(self.packed(i))
    }

    #[tactic(auto, unfolding(crate::specs::Entries::head_of))]
    fn black_rating(&self, i: u32) -> Rating {
        black_rating_in(self.packed(i))
    }

    #[tactic(auto, unfolding(crate::specs::Entries::head_of))]
    fn eco(&self, i: u32) -> u16 {
        eco_in(self.packed(i))
    }

    fn plies(&self, i: u32) -> u16 {
        plies_in(self.packed(i))
    }

    fn extent(&self, i: u32) -> Extent {
        self.place(i)
    }

    fn fetch<F: Files>(&self, i: u32, files: &mut F, buf: &mut [u8]) -> Result<u32, FetchError> {
        let extent = self.place(i);
        match self.store.fetch(extent, files, buf) {
            Ok(()) => Ok(extent.len),
            Err(_) => Err(FetchError::Failed),
        }
    }
}
