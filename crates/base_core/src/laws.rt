//! Three files mean one base or have one first fault, and an open base stands for one base.
ghost use Rattle.std.specs.Prelude.{◌≡◌, ◌≤◌, ◌<◌, ◌+◌, ◌*◌, ◌^◌, ◌⊎◌, ◌++◌, Bool, false, List, length, map, ℕ};
ghost use Rattle.game_tree.specs.Head.{without_tags};
ghost use Rattle.sig_index.specs.Games.{Holds};
ghost use Rattle.base_core.specs.Base.{Base as PlainBase};
ghost use Rattle.base_core.specs.FirstFault.{AllPass, FirstFault};
ghost use Rattle.base_core.specs.Means.{Carries, Means};
ghost use Rattle.base_core.specs.Opening.{Opens, is_created};
ghost use Rattle.base_core.specs.Reading.{IsDecided, IsGameDecided};
ghost use Rattle.base_core.specs.Represents.{Kept, Represents, extents_of, heads_of, sigs_of};
ghost use Rattle.base_core.specs.declared.fault.BaseFault.{BaseFault as Fault};

use game_codec::MainPlace;
use index_entry::{entry_of, read_index, unpack};
use sig_index::signed;

/// A law: three files have a first fault, or mean a base of which each entry passes, however strict the opening is. Each record is looked at,
/// and no memory is taken.
pub fn files_mean_a_base_or_have_a_fault(index: &[u8], names: &[u8], games: &[u8])
    ensures one_of_both { (strict : Bool) → ((fault : Fault) × FirstFault strict index.now names.now games.now fault)
        ⊎ ((base : PlainBase) × (Means index.now names.now games.now base × AllPass strict index.now base.names games.now base.header.games)) }
{
    let Ok(header) = read_index(index) else {
        return;
    };
    for game in 0..header.games {
        decide_game(index, games, game);
    }
}

// The record of a game is one or has a fault, if it lies within the games file.
fn decide_game(index: &[u8], games: &[u8], game: u32)
    requires there { 229 + 47 * game ≤ length index.now }
    ensures decided { IsGameDecided index.now games.now game }
{
    let Ok(entry) = unpack(&entry_of(index, game)) else {
        return;
    };
    let offset = entry.offset as usize;
    let len = entry.len as usize;
    if offset + len <= games.len() {
        let (_, behind) = games.split_at(offset);
        let (bytes, _) = behind.split_at(len);
        decide(bytes);
    }
}

// Bytes are a record or have a fault.
fn decide(bytes: &[u8])
    requires few { length bytes.now < 2 ^ 32 }
    ensures decided { IsDecided bytes.now }
{
    let _signed = signed(bytes, &mut MainPlace::new());
}

/// A law: three files mean one base at most, and have one first fault at most.
pub fn files_have_one_meaning()
    ensures one_base { (index names games : List ℕ) (base other : PlainBase) → Means index names games base → Means index names games other → base ≡ other }
    ensures one_fault { (strict : Bool) (index names games : List ℕ) (fault other : Fault)
        → FirstFault strict index names games fault → FirstFault strict index names games other → fault ≡ other }
{}

/// A law: what is kept of an open base stands for one base at most, and after an opening for the one that the files mean.
pub fn open_bases_have_one_meaning()
    ensures one_base { (kept : Kept) (games : List ℕ) (base other : PlainBase) → Represents kept games base → Represents kept games other → base ≡ other }
    ensures meant { (create strict : Bool) (index names games : List ℕ) (kept : Kept) (mended : ℕ) (base : PlainBase)
        → is_created create index names games ≡ false → Opens create strict index names games kept mended → Means index names games base → Represents kept games base }
{}

/// A law: what searches see of an open base are the games of the base that it stands for. The games file holds their records, with their
/// signatures, and the heads are theirs without the tags.
pub fn searches_see_the_games()
    ensures holds { (kept : Kept) (games : List ℕ) (base : PlainBase) → Represents kept games base
        → Holds games (extents_of kept) (sigs_of kept) (map (λ held. held.game) base.games) }
    ensures heads { (kept : Kept) (games : List ℕ) (base : PlainBase) → Represents kept games base
        → heads_of kept ≡ map (λ held. without_tags held.head) base.games }
{}

/// A law: the files carry the base that they mean, and they carry what they carried as bytes are added behind the games file.
pub fn carried_bases_stay()
    ensures meant { (index names games : List ℕ) (base : PlainBase) → Means index names games base → Carries index names games base }
    ensures longer { (index names games more : List ℕ) (base : PlainBase) → Carries index names games base → Carries index names (games ++ more) base }
{}
