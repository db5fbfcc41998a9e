//! Laws of the games that come over.
ghost use Rattle.std.specs.Prelude.{◌≡◌, ◌<◌, ℕ, Bool, List, Ok, false};
ghost use Rattle.index_entry.specs.Index.{entry_bytes};
ghost use Rattle.base_core.specs.Base.{Base as PlainBase};
ghost use Rattle.base_core.specs.FirstFault.{FirstFault, Passes};
ghost use Rattle.base_core.specs.Means.{Means};
ghost use Rattle.base_core.specs.declared.fault.BaseFault.{BaseFault as Fault};
ghost use Rattle.mend_base.specs.Mending.{ComesOver};
ghost use Rattle.mend_base.specs.Loose.{lengthened};
ghost use Rattle.mend_base.specs.Places.{Found, place_of, places_of};
ghost use Rattle.mend_base.specs.declared.fronts.Faulty.{Faulty};
ghost use Rattle.mend_base.specs.declared.ways.Way.{Way};
ghost use Rattle.mend_base.specs.Ways.{fronts, known_entries, left_out, way_of};
ghost use Rattle.name_base.specs.PartNames.{PartLists};

use base_core::files_mean_a_base_or_have_a_fault;

/// A law: where three files mean a base and each of its entries passes, so that they have no fault, the base comes over as it is.
pub fn sound_bases_come_over()
    ensures over { (faulty : Faulty) (index names games : List ℕ) (base : PlainBase) → Means index names games base
        → ((i : ℕ) → i < base.header.games → Passes false base.names games i (entry_bytes index i))
        → ComesOver (way_of faulty index) index names games base }
{}

/// A law: three files without a first fault, however strict the opening is, mean a base, and it comes over as it is. Each record is looked at,
/// and no memory is taken.
pub fn faultless_files_come_over_whole(index: &[u8], names: &[u8], games: &[u8])
    ensures whole { (strict : Bool) (faulty : Faulty) → ((fault : Fault) → FirstFault strict index.now names.now games.now fault → ⊥)
        → (base : PlainBase) × ComesOver (way_of faulty index.now) index.now names.now games.now base }
{
    files_mean_a_base_or_have_a_fault(index, names, games);
}

/// A law: if records without an entry are sought, the games of all entries come first, as the same as without them.
pub fn entries_come_first()
    ensures first { (way : Way) (index games : List ℕ) (names : PartLists)
        → places_of way (lengthened index games) names games (known_entries index) ≡ places_of way index names games (known_entries index) }
{}

/// A law: a game that comes over while faulty records are left out comes over as the same if something of them is saved.
pub fn whole_games_stay_as_they_are()
    ensures same { (way : Way) (names : PartLists) (games : List ℕ) (game : ℕ) (packed : List ℕ) (found : Found)
        → place_of (left_out way) names games game packed ≡ Ok found → place_of (fronts way) names games game packed ≡ Ok found }
{}
