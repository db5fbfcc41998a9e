//! The position index.
ghost use Rattle.std.specs.Prelude.{◌≡◌, ◌<◌, ◌^◌, List, length, map, slice_set, IfOk};
ghost use Rattle.pos_index.specs.Hits.{Place, last_of};

use crate::board_hits::BoardHits;
use crate::building::read_places;
use crate::fault::BuildError;
use crate::hit::Hit;
use crate::last::Last;
use crate::places::Places;
use crate::placing::{add_game, replace_game};
use base_files::Files;
use cell_core::{Move, PackedBoard};
use game_filter::Renumbering;
use game_tree::Game;
use sig_index::Games;
use std::alloc::{AllocError, Global};
use std::marker::Model;

/// How many games times the plies of one game there are at most under an index.
const MOST: u32 = 16_000_000;

/// Under each board with its side to move the places at which games stand there, of each game from ply 0 to the smaller of a depth and its
/// plies. The games have the numbers from 0 on; a number may have no game.
///
/// Contracts see the depth, and for each number the places of its game.
#[derive(Drop)]
pub struct PosIndex {
    depth: u8,
    places: Places,
    // What is kept of the last place of each game.
    lasts: Vec<Option<Last>>,
}

impl Model for PosIndex {
    ghost use Rattle.std.specs.Prelude.{◌≡◌, ◌≤◌, ◌+◌, All, length, map};
    ghost use Rattle.pos_index.specs.Hits.{Fits, Index, IsRow, last_of};

    ghost Value = { Index };

    ghost view = { λ p. record { depth = p.depth; rows = p.places } };

    ghost invariant = { λ p. (p.depth ≤ 40) × (Fits p.depth (length p.places) × (All (IsRow (p.depth + 1)) p.places × (p.lasts.items ≡ map last_of p.places))) };
}

impl PosIndex {
    ghost use Rattle.std.specs.Prelude.{◌≡◌, ◌+◌, ◌≤◌, ◌<◌, ◌↔◌, ℕ, [], ◌∷◌, ◌++◌, List, All, Option, Some, None, IsTrue, length, map, slice_get, slice_set, IfOk, IfErr, IfSome, OnOk, OnErr};
    ghost use Rattle.game_filter.specs.Renumbering.{renumbered};
    ghost use Rattle.game_tree.specs.Game.{GameTree};
    ghost use Rattle.game_tree.specs.Legal.{IsLegalGame};
    ghost use Rattle.sig_index.specs.Games.{AreWithin, Holds};
    ghost use Rattle.pos_index.specs.Asking.{price};
    ghost use Rattle.pos_index.specs.Causes.{HasBuildCause};
    ghost use Rattle.pos_index.specs.Hits.{Fits, Indexes, IsLegalOn, entries_of, first_on, hits_from, hits_of, last_of, places_in, places_of};

    /// The index of the games of a base, up to a depth of at most 40: their records are read, each once, and so many bytes count as asked.
    /// `buf` has at least 131,072 bytes.
    pub fn build<G: Games, F: Files>(
        alloc: Global,
        games: &G,
        depth: u8,
        files: &mut F,
        buf: &mut [u8],
    ) -> Result<PosIndex, BuildError>
        requires depth { depth ≤ 40 }
        requires fits { Fits depth (length (G.sigs games.now)) }
        requires room { 131072 ≤ length buf.old }
        requires within { AreWithin (F.seen files.old).known (G.extents games.now) }
        ensures depth { IfOk result (λ index. index.depth ≡ depth) }
        ensures games { IfOk result (λ index. length index.rows ≡ length (G.sigs games.now)) }
        // Over a games file that is told and holds the records of these games.
        ensures indexed { (told : List ℕ) (list : List GameTree) → (F.seen files.old).games ≡ Some told → Holds told (G.extents games.now) (G.sigs games.now) list → IfOk result (λ index. Indexes index (map Some list)) }
        ensures unchanged { F.seen files.new ≡ F.seen files.old }
        ensures asks { F.asked files.new ≤ F.asked files.old + price (G.extents games.now) }
        ensures counts { F.faults files.old ≤ F.faults files.new }
        ensures cause { IfErr result (λ e. HasBuildCause e (G.sigs games.now) (G.extents games.now) (F.seen files.old).games buf.new (F.faults files.old) (F.faults files.new)) }
    {
        let places = match read_places(alloc, games, depth, files, buf) {
            Ok(places) => places,
            Err(error) => return Err(error),
        };
        let lasts = match lasts_of(alloc, &places) {
            Ok(lasts) => lasts,
            Err(_) => return Err(BuildError::Memory),
        };
        Ok(PosIndex {
            depth,
            places,
            lasts,
        })
    }

    /// The depth.
    pub fn depth(&self) -> u8
        ensures depth { result ≡ self.now.depth }
        ensures bounded { result ≤ 40 }
    {
        self.depth
    }

    /// Whether so many games may stand under an index to a depth: times the depth and one they are at most 16,000,000.
    pub fn fits(depth: u8, games: u32) -> bool
        ensures fits { IsTrue result ↔ Fits depth games }
    {
        games <= MOST / (u32::from(depth) + 1)
    }

    /// Whether so many games may stand under the index.
    pub fn room(&self, games: u32) -> bool
        ensures room { IsTrue result ↔ Fits self.now.depth games }
    {
        PosIndex::fits(self.depth, games)
    }

    /// How many hits there are on all boards.
    pub fn entries(&self) -> u64
        ensures entries { result ≡ entries_of self.now.rows }
        ensures few { result ≤ 16000000 }
    {
        let mut entries = 0;
        for i in 0..self.places.len() as u32 {
            entries += self.places.count(i) as u64;
        }
        entries
    }

    /// The hits on a board with its side to move, in order of games, and of one game in order of plies.
    pub fn find(&self, p: &PackedBoard) -> &[Hit]
        ensures hits { result.now ≡ hits_from p.now 0 self.now.rows }
        ensures indexed { (games : List (Option GameTree)) → Indexes self.now games → result.now ≡ hits_of self.now.depth games p.now }
        // Also where the records that were read are of no games.
        ensures legal { All (λ hit. IfSome hit.next (IsLegalOn p.now)) result.now }
    {
        self.places.find(p)
    }

    /// What is kept of the last place of each game, up to the depth.
    pub fn lasts(&self) -> &[Option<Last>]
        ensures lasts { result.now ≡ map last_of self.now.rows }
    {
        self.lasts.as_slice()
    }

    /// The first hit of game `i` on a board with its side to move, up to the depth: after how many half-moves of its main line the game
    /// stands there, and the move then. `None` if it has no hit on the board.
    pub fn first(&self, p: &PackedBoard, i: u32) -> Option<(u32, Option<Move>)>
        ensures first { result ≡ first_on p.now (places_in self.now.rows i) }
        ensures indexed { (games : List (Option GameTree)) (game : GameTree) → Indexes self.now games → slice_get games i ≡ Some (Some game) → result ≡ first_on p.now (places_of self.now.depth game) }
        // Also where the records that were read are of no games.
        ensures legal { IfSome result (λ first. IfSome first.1 (IsLegalOn p.now)) }
    {
        BoardHits::new(self.find(p)).first(i)
    }

    /// Adds a legal game, which gets the number `i`. After want of memory the index is as it was.
    pub fn add(&mut self, alloc: Global, i: u32, g: &Game) -> Result<(), AllocError>
        requires last { i ≡ length self.old.rows }
        requires room { Fits self.old.depth (i + 1) }
        requires legal { IsLegalGame g.now }
        ensures added { OnOk result (self.new ≡ record self.old { rows = self.old.rows ++ places_of self.old.depth g.now ∷ [] }) }
        ensures indexed { (games : List (Option GameTree)) → Indexes self.old games → OnOk result (Indexes self.new (games ++ Some g.now ∷ [])) }
        ensures unchanged { OnErr result (self.new ≡ self.old) }
    {
        self.lasts.push(None)?;
        match add_game(alloc, &mut self.places, i, g, self.depth) {
            Ok(()) => {
                keep_last(&mut self.lasts, &self.places, i);
                Ok(())
            }
            Err(refused) => {
                self.lasts.pop();
                Err(refused)
            }
        }
    }

    /// Puts a legal game in the place of game `i`: the hits of the old one go, but for those on the boards with which both begin, which get the
    /// moves of the new one. After want of memory the index is as it was.
    pub fn replace(&mut self, alloc: Global, i: u32, new: &Game) -> Result<(), AllocError>
        requires game { i < length self.old.rows }
        requires legal { IsLegalGame new.now }
        ensures replaced { OnOk result (self.new ≡ record self.old { rows = slice_set self.old.rows i (places_of self.old.depth new.now) }) }
        ensures indexed { (games : List (Option GameTree)) → Indexes self.old games → OnOk result (Indexes self.new (slice_set games i (Some new.now))) }
        ensures unchanged { OnErr result (self.new ≡ self.old) }
    {
        replace_game(alloc, &mut self.places, i, new, self.depth)?;
        self.places.forget();
        keep_last(&mut self.lasts, &self.places, i);
        Ok(())
    }

    /// Removes game `i`: all its hits go, and its number has no game.
    pub fn remove(&mut self, i: u32)
        requires game { i < length self.old.rows }
        ensures removed { self.new ≡ record self.old { rows = slice_set self.old.rows i [] } }
        ensures indexed { (games : List (Option GameTree)) → Indexes self.old games → Indexes self.new (slice_set games i None) }
    {
        self.places.truncate(i, 0);
        self.places.forget();
        keep_last(&mut self.lasts, &self.places, i);
    }

    /// The games get their new numbers, and those that go are left out.
    pub fn renumber(&mut self, r: &Renumbering)
        requires same_games { length r.now.to ≡ length self.old.rows }
        ensures renumbered { self.new ≡ record self.old { rows = renumbered r.now.to self.old.rows } }
        ensures indexed { (games : List (Option GameTree)) → Indexes self.old games → Indexes self.new (renumbered r.now.to games) }
    {
        self.places.renumber(r);
        self.places.forget();
        r.apply(&mut self.lasts);
    }
}

// What is kept of the last place of each game.
fn lasts_of(alloc: Global, places: &Places) -> Result<Vec<Option<Last>>, AllocError>
    requires few { length places.now < 2 ^ 32 }
    ensures lasts { IfOk result (λ lasts. lasts.items ≡ map last_of places.now) }
{
    let mut lasts = Vec::with_capacity(alloc, places.len())?;
    for i in 0..places.len() as u32 {
        lasts.push(places.last(i))?;
    }
    Ok(lasts)
}

// What is kept of the last place of game `i` is that of its places now.
fn keep_last(lasts: &mut Vec<Option<Last>>, places: &Places, i: u32)
    requires game { i < length places.now }
    requires games { length lasts.old.items ≡ length places.now }
    ensures kept { (rows : List (List Place)) (row : List Place) → lasts.old.items ≡ map last_of rows → places.now ≡ slice_set rows i row → lasts.new.items ≡ map last_of places.now }
{
    lasts[i as usize] = places.last(i);
}
