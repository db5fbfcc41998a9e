//! The places of all games of a base.
ghost use Rattle.std.specs.Prelude.{◌≡◌, ◌+◌, ◌<◌, ◌≤◌, ◌^◌, ℕ, false, true, All, List, [], ◌∷◌, ◌++◌, Some, length, map, slice_get, IfOk, IfErr, OnOk};
ghost use Rattle.game_codec.specs.Record.{IsRecord, IsSomeRecord};
ghost use Rattle.game_tree.specs.declared.head.Tag.{Tag};
ghost use Rattle.pos_index.specs.Keeping.{AddsRow};
ghost use Rattle.game_tree.specs.Game.{GameTree};
ghost use Rattle.sig_index.specs.Games.{AreWithin, Holds, extent_in};
ghost use Rattle.pos_index.specs.Asking.{price};
ghost use Rattle.pos_index.specs.Causes.{HasBuildCause};
ghost use Rattle.pos_index.specs.Hits.{IsRow, places_of, row_of};

use crate::fault::BuildError;
use crate::places::Places;
use crate::placing::put_record;
use base_files::Files;
use sig_index::{FetchError, Games};
use std::alloc::{AllocError, Global};

/// The places of the games of a base, up to a depth, each read into `buf`.
pub(crate) fn read_places<G: Games, F: Files>(
    alloc: Global,
    games: &G,
    depth: u8,
    files: &mut F,
    buf: &mut [u8],
) -> Result<Places, BuildError>
    requires depth { depth ≤ 40 }
    requires room { 131072 ≤ length buf.old }
    requires within { AreWithin (F.seen files.old).known (G.extents games.now) }
    ensures games { IfOk result (λ places. length places ≡ length (G.sigs games.now)) }
    ensures short { IfOk result (λ places. All (IsRow (depth + 1)) places) }
    ensures read { (told : List ℕ) (list : List GameTree) → (F.seen files.old).games ≡ Some told → Holds told (G.extents games.now) (G.sigs games.now) list → IfOk result (λ places. places ≡ map (row_of depth) (map Some list)) }
    ensures unchanged { F.seen files.new ≡ F.seen files.old }
    ensures asks { F.asked files.new ≤ F.asked files.old + price (G.extents games.now) }
    ensures counts { F.faults files.old ≤ F.faults files.new }
    ensures cause { IfErr result (λ e. HasBuildCause e (G.sigs games.now) (G.extents games.now) (F.seen files.old).games buf.new (F.faults files.old) (F.faults files.new)) }
{
    let mut places = Places::new(alloc);
    for i in 0..games.len() {
        match read_game(alloc, &mut places, games, i, depth, files, buf) {
            Ok(()) => {}
            Err(error) => return Err(error),
        }
    }
    Ok(places)
}

// Adds the places of game `i`, whose record is read into `buf`.
fn read_game<G: Games, F: Files>(
    alloc: Global,
    places: &mut Places,
    games: &G,
    i: u32,
    depth: u8,
    files: &mut F,
    buf: &mut [u8],
) -> Result<(), BuildError>
    requires depth { depth ≤ 40 }
    requires game { i < length (G.sigs games.now) }
    requires last { i ≡ length places.old }
    requires room { 131072 ≤ length buf.old }
    requires within { AreWithin (F.seen files.old).known (G.extents games.now) }
    ensures short { OnOk result (AddsRow (depth + 1) places.old places.new) }
    ensures read { (told : List ℕ) (list : List GameTree) (game : GameTree) → (F.seen files.old).games ≡ Some told → Holds told (G.extents games.now) (G.sigs games.now) list → slice_get list i ≡ Some game → OnOk result (places.new ≡ places.old ++ places_of depth game ∷ []) }
    ensures unchanged { F.seen files.new ≡ F.seen files.old }
    ensures asks { F.asked files.new ≤ F.asked files.old + (extent_in (G.extents games.now) i).len }
    ensures counts { F.faults files.old ≤ F.faults files.new }
    ensures cause { IfErr result (λ e. HasBuildCause e (G.sigs games.now) (G.extents games.now) (F.seen files.old).games buf.new (F.faults files.old) (F.faults files.new)) }
{
    let len = match games.fetch(i, files, buf) {
        Ok(len) => len,
        Err(error) => return Err(BuildError::Fetch(error)),
    };
    match add_record(alloc, places, i, buf.split_at(len as usize).0, depth) {
        Ok(true) => Ok(()),
        Ok(false) => Err(BuildError::Fetch(FetchError::Changed {
            game: i,
            kept: games.sig(i),
            found: None,
        })),
        Err(_) => Err(BuildError::Memory),
    }
}

// Adds the places of the game of a record, which gets the number `i`, and answers whether the bytes were seen to be no record.
fn add_record(
    alloc: Global,
    places: &mut Places,
    i: u32,
    bytes: &[u8],
    depth: u8,
) -> Result<bool, AllocError>
    requires last { i ≡ length places.old }
    requires few { length bytes.now < 2 ^ 32 }
    requires depth { depth ≤ 40 }
    ensures put { IfOk result (λ put. put ≡ true → (tags : List Tag) (game : GameTree) → IsRecord bytes.now tags game → places.new ≡ places.old ++ places_of depth game ∷ []) }
    ensures short { IfOk result (λ put. put ≡ true → AddsRow (depth + 1) places.old places.new) }
    ensures fault { IfOk result (λ put. put ≡ false → IsSomeRecord bytes.now → ⊥) }
{
    places.add_row(alloc, usize::from(depth) + 1)?;
    let put = put_record(alloc, places, i, bytes, depth)?;
    Ok(put)
}
