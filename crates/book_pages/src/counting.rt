//! What is counted on the boards, over one game.
ghost use Rattle.std.specs.Prelude.{◌≡◌, ◌≤◌, ◌<◌, ◌+◌, ◌^◌, ℕ, All, List, Some, true, false, length, IfOk, IfSome, OnOk, slice_get};
ghost use Rattle.cell_core.specs.Packed.{ArePacked, Packed};
ghost use Rattle.chess_laws.specs.Counts.{counts_of};
ghost use Rattle.game_codec.specs.Record.{IsRecord, IsSomeRecord};
ghost use Rattle.game_tree.specs.Game.{GameTree};
ghost use Rattle.game_tree.specs.Replay.{plies_of};
ghost use Rattle.game_tree.specs.declared.head.Tag.{Tag};
ghost use Rattle.indexmap.specs.IndexSet.{IsUnique};
ghost use Rattle.pos_search.specs.Matching.{matches};
ghost use Rattle.tree_rows.specs.Hits.{hit_from};
ghost use Rattle.book_pages.specs.Book.{packed_eq};
ghost use Rattle.book_pages.specs.Keeping.{AreBoards, AreMet, AreMetAt, AreMetNoMore, AreTallies, HasHomes, IsBelow, IsHere, Tallied, is_at, men_in, query_of};
ghost use Rattle.book_pages.specs.declared.counting.Course.TheVariants as course;

use crate::least::{Least, is_past};
use crate::tally::Tally;
use crate::trail::{Tracker, Trail};
use cell_core::{Colour, Move, PackedBoard, pack};
use chess_laws::Position;
use game_codec::Walk;
use game_tree::Outcome;
use indexmap::IndexSet;
use std::alloc::{AllocError, Global};
use tree_rows::GameHit;

/// What is counted of a game beside its moves: its number, its result, the ratings of White and of Black, and its year.
#[derive(Clone, Copy)]
pub(crate) struct Counted {
    pub(crate) number: u32,
    pub(crate) outcome: Outcome,
    pub(crate) white: u16,
    pub(crate) black: u16,
    pub(crate) year: u16,
}

// How a game goes on behind a position: by a move, or no further on any board that has a page; or the bytes are no record.
#[derive(Clone, Copy, PartialEq, Eq)]
enum Course {
    On,
    Over,
    Broken,
}

/// Counts the game of a record on the boards that its main line reaches, on each at the place where the line reaches it
/// first. It answers whether the bytes may be a record. If they are none, and after want of memory, nothing is known of
/// what was counted. No board has less than `least`.
pub(crate) fn count_record(
    alloc: Global,
    boards: &IndexSet<PackedBoard>,
    least: &Least,
    tallies: &mut [Tally],
    trails: &mut [Trail],
    tracker: &mut Tracker,
    game: &Counted,
    bytes: &[u8],
) -> Result<bool, AllocError>
    requires few { length bytes.now < 2 ^ 32 }
    requires number { game.now.number ≤ 16777213 }
    requires boards { AreBoards boards.now least.now.men }
    requires homes { All (HasHomes least.now.homes.items) boards.now.keys }
    requires kept { AreTallies boards.now.keys game.now.number tallies.old }
    ensures kept { IfOk result (λ read. read ≡ true → AreTallies boards.now.keys (game.now.number + 1) tallies.new) }
    ensures met { IfOk result (λ read. read ≡ true → (tags : List Tag) (tree : GameTree) → IsRecord bytes.now tags tree → AreMet boards.now.keys game.now tree (plies_of tree + 1) tallies.old tallies.new) }
    ensures fault { IfOk result (λ read. read ≡ false → IsSomeRecord bytes.now → ⊥) }
{
    let mut walk = match Walk::new(bytes) {
        Ok(walk) => walk,
        Err(_) => return Ok(false),
    };
    loop {
        // A move takes a byte at least, so the walk ends.
        walk.ply();
        let course = count_here(
            alloc, boards, least, tallies, trails, tracker, game, &mut walk,
        )?;
        match course {
            Course::On => {}
            Course::Over => return Ok(true),
            Course::Broken => return Ok(false),
        }
    }
}

// Counts the position of a walk, and goes on to the next.
fn count_here(
    alloc: Global,
    boards: &IndexSet<PackedBoard>,
    least: &Least,
    tallies: &mut [Tally],
    trails: &mut [Trail],
    tracker: &mut Tracker,
    game: &Counted,
    walk: &mut Walk<'_>,
) -> Result<Course, AllocError>
    requires number { game.now.number ≤ 16777213 }
    requires boards { AreBoards boards.now least.now.men }
    requires homes { All (HasHomes least.now.homes.items) boards.now.keys }
    requires kept { AreTallies boards.now.keys (game.now.number + 1) tallies.old }
    ensures kept { IfOk result (λ c. (c ≡ course.Broken → ⊥) → AreTallies boards.now.keys (game.now.number + 1) tallies.new) }
    ensures met { IfOk result (λ c. (c ≡ course.Broken → ⊥) → (tags : List Tag) (tree : GameTree) → IsRecord walk.old.bytes tags tree → AreMetAt boards.now.keys game.now tree walk.old.ply tallies.old tallies.new) }
    ensures on { IfOk result (λ c. c ≡ course.On → (walk.new.ply ≡ walk.old.ply + 1) × (walk.new.bytes ≡ walk.old.bytes)) }
    ensures within { IfOk result (λ c. c ≡ course.On → (tags : List Tag) (tree : GameTree) → IsRecord walk.old.bytes tags tree → walk.new.ply ≤ plies_of tree) }
    ensures over { IfOk result (λ c. c ≡ course.Over → (tags : List Tag) (tree : GameTree) → IsRecord walk.old.bytes tags tree → AreMetNoMore boards.now.keys tree walk.old.ply) }
    ensures fault { IfOk result (λ c. c ≡ course.Broken → IsSomeRecord walk.old.bytes → ⊥) }
{
    let place = walk.position();
    if is_past(least, place) {
        return Ok(Course::Over);
    }
    // The rules of a position.
    let _rules = place.setup();
    let side = place.side();
    let here = place_of(boards, place);
    tracker.arrive(alloc, trails, here, place)?;
    let next = match walk.step() {
        Ok(next) => next,
        Err(_) => return Ok(Course::Broken),
    };
    meet(tallies, here, game, &next, side)?;
    match next {
        Some(m) => {
            tracker.leave(m);
            Ok(Course::On)
        }
        None => Ok(Course::Over),
    }
}

// The number of the board of a position, if it has a page.
fn place_of(boards: &IndexSet<PackedBoard>, place: &Position) -> Option<usize>
    requires unique { IsUnique packed_eq boards.now }
    requires packed { All (λ board. ArePacked board.cells) boards.now.keys }
    ensures tells { (k : ℕ) (board : Packed) → slice_get boards.now.keys k ≡ Some board → matches (query_of board) place.now ≡ is_at result k }
    ensures there { IfSome result (λ k. k < length boards.now.keys) }
{
    boards.get_index_of(&pack(place.board(), place.side()))
}

// Counts a game on a board, if it stands on one and was not counted there before.
fn meet(
    tallies: &mut [Tally],
    here: Option<usize>,
    game: &Counted,
    next: &Option<Move>,
    side: Colour,
) -> Result<(), AllocError>
    requires number { game.now.number ≤ 16777213 }
    requires below { All (IsBelow (game.now.number + 1)) tallies.old }
    requires there { IfSome here (λ k. k < length tallies.old) }
    ensures met { OnOk result ((k : ℕ) (before after : Tallied) → slice_get tallies.old k ≡ Some before → slice_get tallies.new k ≡ Some after
        → IsHere (is_at here k) game.now.number (hit_from next.now side game.now.outcome game.now.white game.now.black game.now.year) before after) }
    ensures len { OnOk result (length tallies.new ≡ length tallies.old) }
{
    let Some(number) = here else {
        return Ok(());
    };
    let hit = GameHit::of(*next, side, game.outcome, game.white, game.black, game.year);
    tallies[number].meet(game.number, &hit)
}

/// How many men are on the board of a position, kings not counted.
pub(crate) fn men_in(p: &Position) -> u16
    ensures men { result ≡ men_in p.now.board }
{
    p.counts().iter().map(|count| u16::from(*count)).sum()
}
