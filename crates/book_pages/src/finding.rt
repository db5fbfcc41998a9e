//! Which boards have a page.
ghost use Rattle.std.specs.Prelude.{◌≡◌, ◌≤◌, ◌<◌, ◌+◌, ◌-◌, ◌^◌, ℕ, List, [], ◌∷◌, true, false, drop, length, take, IfOk, IfErr, OnOk, Some, slice_get};
ghost use Rattle.std.specs.List.{IsDistinct, position_or_len};
ghost use Rattle.cell_core.specs.Packed.{Packed};
ghost use Rattle.game_codec.specs.Record.{IsRecord, IsSomeRecord};
ghost use Rattle.game_tree.specs.Game.{GameTree};
ghost use Rattle.game_tree.specs.Replay.{plies_of};
ghost use Rattle.game_tree.specs.declared.head.Tag.{Tag};
ghost use Rattle.indexmap.specs.IndexSet.{insert_all, insert_key};
ghost use Rattle.sig_index.specs.Games.{AreWithin, Holds, extent_in};
ghost use Rattle.book_pages.specs.Asking.{len_if_in, price};
ghost use Rattle.book_pages.specs.Book.{packed_eq};
ghost use Rattle.book_pages.specs.Causes.{HasBookCause};
ghost use Rattle.book_pages.specs.Meeting.{AreCounts, Meets, Reaches, count_from, well_met};
ghost use Rattle.book_pages.specs.Reached.{IsLeast, board_at, boards_of, book_boards, reached, reached_if_in};

use crate::fault::BookError;
use crate::met::{Counts, Met};
use crate::reach::Reach;
use base_files::Files;
use cell_core::{PackedBoard, pack};
use game_codec::{RecordFault, Walk};
use game_filter::Filter;
use indexmap::IndexSet;
use sig_index::{FetchError, Games};
use std::alloc::{AllocError, Global};

/// How many pages a book has at most.
const MOST_PAGES: usize = 20_000;

/// The boards that have a page, each with a side to move, and how many games reach each of them at least.
#[derive(Drop)]
pub struct Boards {
    pub boards: IndexSet<PackedBoard>,
    /// As many as were asked for, or more where else there would be too many pages.
    pub least: u64,
}

/// The boards that have a page: the start, and then each one that as many games of the filter reach as are asked for, in the order in which
/// games first reach them. Where that would be more than 20,000, so many games more are asked for that it is not.
///
/// The record of each game of the filter is read, once, and so many bytes count as asked. `buf` has at least 131,072 bytes.
pub fn find_boards<G: Games, F: Files>(
    alloc: Global,
    games: &G,
    filter: &Filter,
    reach: &Reach,
    files: &mut F,
    buf: &mut [u8],
) -> Result<Boards, BookError>
    requires games { length filter.now ≡ length (G.sigs games.now) }
    requires room { 131072 ≤ length buf.old }
    requires within { AreWithin (F.seen files.old).known (G.extents games.now) }
    // Over a games file that is told and holds the records of these games.
    ensures boards { (told : List ℕ) (list : List GameTree) → (F.seen files.old).games ≡ Some told → Holds told (G.extents games.now) (G.sigs games.now) list → IfOk result (λ found. found.boards.keys ≡ book_boards reach.now filter.now list found.least) }
    ensures least { (told : List ℕ) (list : List GameTree) → (F.seen files.old).games ≡ Some told → Holds told (G.extents games.now) (G.sigs games.now) list → IfOk result (λ found. IsLeast reach.now filter.now list found.least) }
    ensures start { IfOk result (λ found. slice_get found.boards.keys 0 ≡ Some reach.now.start) }
    ensures few { IfOk result (λ found. length found.boards.keys ≤ 20000) }
    ensures unchanged { F.seen files.new ≡ F.seen files.old }
    ensures asks { F.asked files.new ≤ F.asked files.old + price filter.now (G.extents games.now) }
    ensures counts { F.faults files.old ≤ F.faults files.new }
    ensures cause { IfErr result (λ e. HasBookCause e (G.sigs games.now) (G.extents games.now) (F.seen files.old).games buf.new (F.faults files.old) (F.faults files.new)) }
{
    let mut counts = Counts::new(alloc);
    for i in 0..filter.len() {
        match meet_game(&mut counts, games, filter.get(i), i, reach, files, buf) {
            Ok(()) => {}
            Err(error) => return Err(error),
        }
    }
    let boards = chosen(alloc, reach, &counts)?;
    Ok(boards)
}

// Meets the positions of game `i`, if it is in.
fn meet_game<G: Games, F: Files>(
    counts: &mut Counts,
    games: &G,
    ply: Option<u32>,
    i: u32,
    reach: &Reach,
    files: &mut F,
    buf: &mut [u8],
) -> Result<(), BookError>
    requires game { i < length (G.sigs games.now) }
    requires few { i < 2 ^ 32 - 1 }
    requires kept { AreCounts i counts.old.boards.keys counts.old.met.items }
    requires room { 131072 ≤ length buf.old }
    requires within { AreWithin (F.seen files.old).known (G.extents games.now) }
    ensures kept { OnOk result (AreCounts (i + 1) counts.new.boards.keys counts.new.met.items) }
    ensures met { (told : List ℕ) (list : List GameTree) (game : GameTree) → (F.seen files.old).games ≡ Some told → Holds told (G.extents games.now) (G.sigs games.now) list → slice_get list i ≡ Some game → OnOk result (Reaches i (reached_if_in reach.now ply game) counts.old.boards.keys counts.old.met.items counts.new.boards.keys counts.new.met.items) }
    ensures unchanged { F.seen files.new ≡ F.seen files.old }
    ensures asks { F.asked files.new ≤ F.asked files.old + len_if_in ply (extent_in (G.extents games.now) i).len }
    ensures counts { F.faults files.old ≤ F.faults files.new }
    ensures cause { IfErr result (λ e. HasBookCause e (G.sigs games.now) (G.extents games.now) (F.seen files.old).games buf.new (F.faults files.old) (F.faults files.new)) }
{
    let Some(_) = ply else {
        return Ok(());
    };
    let len = match games.fetch(i, files, buf) {
        Ok(len) => len,
        Err(error) => return Err(BookError::Fetch(error)),
    };
    match meet_record(counts, i, buf.split_at(len as usize).0, reach) {
        Ok(true) => Ok(()),
        Ok(false) => Err(BookError::Fetch(FetchError::Changed {
            game: i,
            kept: games.sig(i),
            found: None,
        })),
        Err(_) => Err(BookError::Memory),
    }
}

// Meets the positions of the game of a record, from the start on, and answers whether the bytes were seen to be no record.
fn meet_record(counts: &mut Counts, i: u32, bytes: &[u8], reach: &Reach) -> Result<bool, AllocError>
    requires few { i < 2 ^ 32 - 1 }
    requires bytes { length bytes.now < 2 ^ 32 }
    requires kept { AreCounts i counts.old.boards.keys counts.old.met.items }
    ensures kept { OnOk result (AreCounts (i + 1) counts.new.boards.keys counts.new.met.items) }
    ensures met { IfOk result (λ met. met ≡ true → (tags : List Tag) (tree : GameTree) → IsRecord bytes.now tags tree → Reaches i (reached reach.now (boards_of tree)) counts.old.boards.keys counts.old.met.items counts.new.boards.keys counts.new.met.items) }
    ensures fault { IfOk result (λ met. met ≡ false → IsSomeRecord bytes.now → ⊥) }
{
    let mut walk = match Walk::new(bytes) {
        Ok(walk) => walk,
        Err(_) => return Ok(false),
    };
    match go_to(&mut walk, &reach.start) {
        Ok(true) => meet_on(counts, i, &mut walk, reach.depth),
        Ok(false) => Ok(true),
        Err(_) => Ok(false),
    }
}

// Goes on from the beginning to the first position of a board, if it comes.
fn go_to(walk: &mut Walk<'_>, start: &PackedBoard) -> Result<bool, RecordFault>
    requires beginning { walk.old.ply ≡ 0 }
    ensures found { IfOk result (λ found. found ≡ true → (tags : List Tag) (tree : GameTree) → IsRecord walk.old.bytes tags tree → position_or_len (packed_eq start.now) (boards_of tree) ≡ walk.new.ply) }
    ensures absent { IfOk result (λ found. found ≡ false → (tags : List Tag) (tree : GameTree) → IsRecord walk.old.bytes tags tree → position_or_len (packed_eq start.now) (boards_of tree) ≡ length (boards_of tree)) }
    ensures bytes { IfOk result (λ _. walk.new.bytes ≡ walk.old.bytes) }
    ensures fault { IfErr result (λ _. IsSomeRecord walk.old.bytes → ⊥) }
{
    loop {
        // A move takes a byte at least, so the walk ends.
        walk.ply();
        let place = walk.position();
        if pack(place.board(), place.side()) == *start {
            return Ok(true);
        }
        match walk.step() {
            Ok(Some(_)) => {}
            Ok(None) => return Ok(false),
            Err(fault) => return Err(fault),
        }
    }
}

// Meets the position of a walk, and so many behind it, and answers whether the bytes were seen to be no record.
fn meet_on(counts: &mut Counts, i: u32, walk: &mut Walk<'_>, depth: u8) -> Result<bool, AllocError>
    requires few { i < 2 ^ 32 - 1 }
    requires kept { AreCounts i counts.old.boards.keys counts.old.met.items }
    ensures kept { OnOk result (AreCounts (i + 1) counts.new.boards.keys counts.new.met.items) }
    ensures met { IfOk result (λ met. met ≡ true → (tags : List Tag) (tree : GameTree) → IsRecord walk.old.bytes tags tree → Reaches i (take (depth + 1) (drop walk.old.ply (boards_of tree))) counts.old.boards.keys counts.old.met.items counts.new.boards.keys counts.new.met.items) }
    ensures fault { IfOk result (λ met. met ≡ false → IsSomeRecord walk.old.bytes → ⊥) }
{
    meet_here(counts, i, walk)?;
    for _ply in 0..depth {
        match walk.step() {
            Ok(Some(_)) => {}
            Ok(None) => return Ok(true),
            Err(_) => return Ok(false),
        }
        meet_here(counts, i, walk)?;
    }
    Ok(true)
}

// Meets the position of a walk.
fn meet_here(counts: &mut Counts, i: u32, walk: &Walk<'_>) -> Result<(), AllocError>
    requires few { i < 2 ^ 32 - 1 }
    requires kept { AreCounts (i + 1) counts.old.boards.keys counts.old.met.items }
    ensures kept { OnOk result (AreCounts (i + 1) counts.new.boards.keys counts.new.met.items) }
    ensures met { (tags : List Tag) (tree : GameTree) → IsRecord walk.now.bytes tags tree → OnOk result (Meets i (board_at tree walk.now.ply) counts.old.boards.keys counts.old.met.items counts.new.boards.keys counts.new.met.items) }
    ensures within { (tags : List Tag) (tree : GameTree) → IsRecord walk.now.bytes tags tree → walk.now.ply ≤ plies_of tree }
{
    // Within the main line.
    walk.ply();
    let place = walk.position();
    counts.meet(i, pack(place.board(), place.side()))
}

// The boards that have a page, the start first.
fn chosen(alloc: Global, reach: &Reach, counts: &Counts) -> Result<Boards, AllocError>
    requires count { length counts.now.met.items ≡ length counts.now.boards.keys }
    requires distinct { IsDistinct packed_eq counts.now.boards.keys }
    ensures boards { IfOk result (λ found. found.boards.keys ≡ take 20000 (insert_all packed_eq (reach.now.start ∷ []) (well_met counts.now.boards.keys counts.now.met.items found.least))) }
    ensures asked { IfOk result (λ found. reach.now.least ≤ found.least) }
    ensures few { IfOk result (λ found. count_from counts.now.met.items found.least ≤ 20000) }
    ensures needed { IfOk result (λ found. (fewer : ℕ) → reach.now.least ≤ fewer → fewer < found.least → 20000 < count_from counts.now.met.items fewer) }
{
    let least = raised(counts.met(), reach.least);
    let mut boards = IndexSet::new(alloc);
    boards.insert(reach.start)?;
    for number in 0..counts.len() {
        if u64::from(counts.met()[number].games()) >= least {
            add_board(&mut boards, counts.board(number))?;
        }
    }
    Ok(Boards { boards, least })
}

// Adds a board, unless it is there or there are 20,000.
fn add_board(boards: &mut IndexSet<PackedBoard>, board: &PackedBoard) -> Result<(), AllocError>
    ensures added { (all : List Packed) → boards.old.keys ≡ take 20000 all → OnOk result (boards.new.keys ≡ take 20000 (insert_key packed_eq all board.now)) }
{
    if boards.len() < MOST_PAGES {
        boards.insert(*board)?;
    }
    Ok(())
}

// How many games reach a board at least, so that at most 20,000 boards are left, and no fewer than that asks for.
fn raised(met: &[Met], asked: u32) -> u64
    ensures asked { asked ≤ result }
    ensures few { count_from met.now result ≤ 20000 }
    ensures needed { (fewer : ℕ) → asked ≤ fewer → fewer < result → 20000 < count_from met.now fewer }
{
    let mut fewer = u64::from(asked);
    if reached_by(met, fewer) <= MOST_PAGES {
        return fewer;
    }
    let mut enough = above_all(met);
    while enough - fewer > 1 {
        let between = fewer + (enough - fewer) / 2;
        if reached_by(met, between) <= MOST_PAGES {
            enough = between;
        } else {
            fewer = between;
        }
    }
    enough
}

// More games than reach any board.
fn above_all(met: &[Met]) -> u64
    ensures none { count_from met.now result ≡ 0 }
{
    let mut most = 0u32;
    for one in met {
        most = most.max(one.games());
    }
    u64::from(most) + 1
}

// How many boards so many games reach at least.
fn reached_by(met: &[Met], least: u64) -> usize
    ensures count { result ≡ count_from met.now least }
{
    met.iter()
        .filter(|one| u64::from(one.games()) >= least)
        .count()
}
