//! The places of one game, from the game in memory or from its record.
ghost use Rattle.std.specs.Prelude.{◌≡◌, ◌+◌, ◌≤◌, ◌<◌, ◌^◌, [], ◌∷◌, ◌++◌, false, true, nat_lt, if◌then◌else◌, List, drop, length, slice_set, IfOk, OnOk, OnErr};
ghost use Rattle.cell_core.specs.Packed.{packed_of};
ghost use Rattle.chess_laws.specs.Position.{Sound};
ghost use Rattle.game_codec.specs.Record.{IsRecord, IsSomeRecord};
ghost use Rattle.game_tree.specs.Game.{GameTree};
ghost use Rattle.game_tree.specs.Legal.{IsLegalGame};
ghost use Rattle.game_tree.specs.Replay.{next_at};
ghost use Rattle.game_tree.specs.declared.head.Tag.{Tag};
ghost use Rattle.pos_index.specs.Hits.{places_of};
ghost use Rattle.pos_index.specs.Keeping.{AreAlike, HasPut, HasPutAtMost, first_places, row_in, with_row};

use crate::places::Places;
use cell_core::{Move, PackedBoard, pack};
use chess_laws::Position;
use game_codec::Walk;
use game_tree::Game;
use std::alloc::{AllocError, Global};

/// Adds the places of a legal game, up to a depth, which gets the number `i`. After want of memory all is as it was.
pub(crate) fn add_game(
    alloc: Global,
    places: &mut Places,
    i: u32,
    game: &Game,
    depth: u8,
) -> Result<(), AllocError>
    requires last { i ≡ length places.old }
    requires legal { IsLegalGame game.now }
    requires depth { depth ≤ 40 }
    ensures added { OnOk result (places.new ≡ places.old ++ places_of depth game.now ∷ []) }
    ensures start { OnOk result (Sound game.now.start) }
    ensures unchanged { OnErr result (places.new ≡ places.old) }
{
    places.add_row(alloc, usize::from(depth) + 1)?;
    match put_game(alloc, places, i, game, 0, depth) {
        Ok(()) => Ok(()),
        Err(refused) => {
            places.pop_row();
            Err(refused)
        }
    }
}

// Puts the places of a legal game, up to a depth, behind those that number `i` has, but for the first ones, so many. After want of memory
// all is as it was.
fn put_game(
    alloc: Global,
    places: &mut Places,
    i: u32,
    game: &Game,
    from: u8,
    depth: u8,
) -> Result<(), AllocError>
    requires number { i < length places.old }
    requires legal { IsLegalGame game.now }
    requires depth { depth ≤ 40 }
    ensures put { OnOk result (places.new ≡ with_row places.old i (row_in places.old i ++ drop from (places_of depth game.now))) }
    ensures start { Sound game.now.start }
    ensures unchanged { OnErr result (places.new ≡ places.old) }
{
    let old = places.count(i);
    match try_game(alloc, places, i, game, from, depth) {
        Ok(()) => Ok(()),
        Err(refused) => {
            places.truncate(i, old);
            Err(refused)
        }
    }
}

/// Puts the places of a legal game, up to a depth, in the place of those of number `i`. The old ones go, but for those on the boards with
/// which both begin: these get the moves of the new game. After want of memory all is as it was.
pub(crate) fn replace_game(
    alloc: Global,
    places: &mut Places,
    i: u32,
    new: &Game,
    depth: u8,
) -> Result<(), AllocError>
    requires number { i < length places.old }
    requires legal { IsLegalGame new.now }
    requires depth { depth ≤ 40 }
    ensures replaced { OnOk result (places.new ≡ slice_set places.old i (places_of depth new.now)) }
    ensures start { OnOk result (Sound new.now.start) }
    ensures unchanged { OnErr result (places.new ≡ places.old) }
{
    let old = places.count(i);
    let kept = common(places, i, new, depth);
    put_game(alloc, places, i, new, kept, depth)?;
    places.drop_middle(i, usize::from(kept), old - usize::from(kept));
    set_nexts(places, i, new, kept);
    Ok(())
}

// The same as `put_game`, but after want of memory the first of them may have been put.
fn try_game(
    alloc: Global,
    places: &mut Places,
    i: u32,
    game: &Game,
    from: u8,
    depth: u8,
) -> Result<(), AllocError>
    requires number { i < length places.old }
    requires legal { IsLegalGame game.now }
    requires depth { depth ≤ 40 }
    ensures put { OnOk result (places.new ≡ with_row places.old i (row_in places.old i ++ drop from (places_of depth game.now))) }
    ensures start { Sound game.now.start }
    ensures some { OnErr result (HasPut places.old i places.new) }
{
    let mut position = game.start;
    for ply in 0..depth + 1 {
        let next = next_in(game, ply);
        put_from(alloc, places, i, packed(&position), from, ply, &next)?;
        match next {
            Some(m) => position.play(m),
            None => return Ok(()),
        }
    }
    Ok(())
}

// Puts a place, if it is none of the first ones.
fn put_from(
    alloc: Global,
    places: &mut Places,
    i: u32,
    board: PackedBoard,
    from: u8,
    ply: u8,
    next: &Option<Move>,
) -> Result<(), AllocError>
    requires number { i < length places.old }
    ensures put { OnOk result (places.new ≡ with_row places.old i (row_in places.old i ++ (if nat_lt ply from then [] else record { board = board; ply = ply; next = next.now } ∷ []))) }
    ensures unchanged { OnErr result (places.new ≡ places.old) }
{
    if ply < from {
        return Ok(());
    }
    places.put(alloc, i, board, ply, next)
}

// How many of the first places of number `i` are those of a legal game, but for the moves after them.
fn common(places: &Places, i: u32, game: &Game, depth: u8) -> u8
    requires number { i < length places.now }
    requires legal { IsLegalGame game.now }
    requires depth { depth ≤ 40 }
    ensures alike { AreAlike (row_in places.now i) game.now result }
    ensures few { result ≤ length (places_of depth game.now) }
{
    let count = places.count(i);
    let mut position = game.start;
    for ply in 0..depth + 1 {
        if usize::from(ply) >= count || !places.is_at(i, ply, &packed(&position)) {
            return ply;
        }
        match next_in(game, ply) {
            Some(m) => position.play(m),
            None => return ply + 1,
        }
    }
    depth + 1
}

// Sets the moves after the first places of number `i`, so many, which are those of the game but for them.
fn set_nexts(places: &mut Places, i: u32, game: &Game, count: u8)
    requires number { i < length places.old }
    requires alike { AreAlike (row_in places.old i) game.now count }
    ensures { places.new ≡ with_row places.old i (first_places game.now count ++ drop count (row_in places.old i)) }
{
    for k in 0..count {
        places.set_next(i, usize::from(k), &next_in(game, k));
    }
}

// The move of the main line after so many half-moves, if there is one.
fn next_in(game: &Game, ply: u8) -> Option<Move>
    ensures { result ≡ next_at game.now ply }
{
    match game.line.as_slice().get(usize::from(ply)) {
        Some(node) => Some(node.mv),
        None => None,
    }
}

// The board of a position with its side to move.
fn packed(position: &Position) -> PackedBoard
    ensures packed { result ≡ packed_of position.now.board position.now.side }
    ensures sound { Sound position.now }
{
    let setup = position.setup();
    pack(&setup.board, setup.side)
}

/// Puts the places of the game of a record of fewer than 2^32 bytes, up to a depth, behind those that number `i` has, and answers whether
/// the bytes were seen to be no record.
pub(crate) fn put_record(
    alloc: Global,
    places: &mut Places,
    i: u32,
    bytes: &[u8],
    depth: u8,
) -> Result<bool, AllocError>
    requires number { i < length places.old }
    requires few { length bytes.now < 2 ^ 32 }
    requires depth { depth ≤ 40 }
    ensures put { IfOk result (λ put. put ≡ true → (tags : List Tag) (game : GameTree) → IsRecord bytes.now tags game
        → places.new ≡ with_row places.old i (row_in places.old i ++ places_of depth game)) }
    ensures some { IfOk result (λ put. put ≡ true → HasPutAtMost (depth + 1) places.old i places.new) }
    ensures fault { IfOk result (λ put. put ≡ false → IsSomeRecord bytes.now → ⊥) }
{
    let mut walk = match Walk::new(bytes) {
        Ok(walk) => walk,
        Err(_) => return Ok(false),
    };
    for ply in 0..depth + 1 {
        let board = packed(walk.position());
        let next = match walk.step() {
            Ok(next) => next,
            Err(_) => return Ok(false),
        };
        places.put(alloc, i, board, ply, &next)?;
        if next.is_none() {
            return Ok(true);
        }
    }
    Ok(true)
}
