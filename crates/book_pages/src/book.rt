//! A book.
ghost use Rattle.std.specs.Prelude.{◌≡◌, ◌≤◌, ◌<◌, ◌+◌, ◌^◌, ℕ, All, List, Some, length, IfOk, IfErr, OnOk, slice_get, take};
ghost use Rattle.cell_core.specs.Packed.{men_of};
ghost use Rattle.game_tree.specs.Game.{GameTree};
ghost use Rattle.sig_index.specs.Games.{AreWithin, Holds, extent_in, head_in};
ghost use Rattle.book_pages.specs.Asking.{len_if_in, price};
ghost use Rattle.book_pages.specs.Causes.{HasBookCause};
ghost use Rattle.book_pages.specs.Hits.{hits_below};
ghost use Rattle.book_pages.specs.Keeping.{AreBoards, AreTallies, AreCountedIf, HasHomes, HaveCounted, IsBoard, IsUncounted, counted_of};

use crate::counting::{Counted, count_record, men_in};
use crate::fault::BookError;
use crate::least::{Least, homes_of};
use crate::listing::{Listed, Worth};
use crate::tally::Tally;
use crate::trail::{Tracker, Trail, Way};
use base_files::Files;
use cell_core::{PackedBoard, unpack};
use chess_laws::Position;
use game_filter::Filter;
use indexmap::IndexSet;
use sig_index::{FetchError, Games};
use std::alloc::{AllocError, Global};
use std::marker::Model;
use tree_rows::Row;

/// The pages of a book, in the order of its boards: on each what the games of a filter made from that board on.
///
/// Contracts see the boards, and the rows of each page.
#[derive(Drop)]
pub struct Book {
    boards: IndexSet<PackedBoard>,
    tallies: Vec<Tally>,
    trails: Vec<Trail>,
}

impl Model for Book {
    ghost use Rattle.std.specs.Prelude.{map};
    ghost use Rattle.book_pages.specs.Book.{Pages};
    ghost use Rattle.book_pages.specs.Keeping.{IsBook};

    ghost Value = { Pages };

    ghost view = { λ b. record { boards = b.boards.keys; rows = map (λ tally. tally.rows) b.tallies.items } };

    ghost invariant = { λ b. IsBook b.boards.keys b.tallies.items };
}

impl Book {
    ghost use Rattle.std.specs.Prelude.{◌≡◌, ◌≤◌, ◌<◌, ◌+◌, ◌^◌, All, List, Some, length, IfOk, IfErr, IfSome, is_some, slice_get};
    ghost use Rattle.cell_core.specs.Packed.{Packed, men_of};
    ghost use Rattle.game_tree.specs.Game.{GameTree};
    ghost use Rattle.sig_index.specs.Games.{AreWithin, Holds};
    ghost use Rattle.tree_rows.specs.MoveText.{IsKey};
    ghost use Rattle.book_pages.specs.Asking.{price};
    ghost use Rattle.book_pages.specs.Book.{ShowTrees, has_page};
    ghost use Rattle.book_pages.specs.Causes.{HasBookCause};

    /// The pages of these boards, the first of which is the start of the book, over the games of a filter: at most 16,777,214 games, and
    /// an entry of the filter for each. The ways that the pages tell are at most so deep.
    ///
    /// The record of each game of the filter is read, once, and so many bytes count as asked. `buf` has at least 131,072 bytes.
    pub fn read<G: Games, F: Files>(
        alloc: Global,
        games: &G,
        filter: &Filter,
        boards: IndexSet<PackedBoard>,
        depth: u8,
        files: &mut F,
        buf: &mut [u8],
    ) -> Result<Book, BookError>
        requires games { length filter.now ≡ length (G.sigs games.now) }
        requires few { length filter.now ≤ 16777214 }
        requires room { 131072 ≤ length buf.old }
        requires within { AreWithin (F.seen files.old).known (G.extents games.now) }
        // Over a games file that is told and holds the records of these games.
        ensures rows { (told : List ℕ) (list : List GameTree) → (F.seen files.old).games ≡ Some told → Holds told (G.extents games.now) (G.sigs games.now) list → IfOk result (λ book. ShowTrees filter.now (G.heads games.now) list book) }
        ensures boards { IfOk result (λ book. book.boards ≡ boards.keys) }
        ensures unchanged { F.seen files.new ≡ F.seen files.old }
        ensures asks { F.asked files.new ≤ F.asked files.old + price filter.now (G.extents games.now) }
        ensures counts { F.faults files.old ≤ F.faults files.new }
        ensures cause { IfErr result (λ e. HasBookCause e (G.sigs games.now) (G.extents games.now) (F.seen files.old).games buf.new (F.faults files.old) (F.faults files.new)) }
    {
        let mut tallies = tallies_of(alloc, boards.len())?;
        let mut trails = trails_of(alloc, boards.len())?;
        let least = Least {
            men: fewest_in(boards.as_slice()),
            homes: homes_of(alloc, boards.as_slice())?,
        };
        match count_games(
            alloc,
            games,
            filter,
            &boards,
            &least,
            tallies.as_mut_slice(),
            trails.as_mut_slice(),
            depth,
            files,
            buf,
        ) {
            Ok(()) => {}
            Err(error) => return Err(error),
        }
        Ok(Book {
            boards,
            tallies,
            trails,
        })
    }

    /// How many pages there are.
    pub fn len(&self) -> usize
        ensures len { result ≡ length self.now.boards }
        ensures rows { result ≡ length self.now.rows }
    {
        self.boards.len()
    }

    /// The board of a page, with the side to move.
    pub fn board(&self, number: usize) -> PackedBoard
        requires page { number < length self.now.boards }
        ensures board { slice_get self.now.boards number ≡ Some result }
    {
        self.boards.as_slice()[number]
    }

    /// The page of a board, if it has one.
    pub fn page_of(&self, board: &PackedBoard) -> Option<usize>
        ensures has { is_some result ≡ has_page board.now self.now.boards }
        ensures page { IfSome result (λ page. slice_get self.now.boards page ≡ Some board.now) }
    {
        self.boards.get_index_of(board)
    }

    /// The rows of a page, in the order of their keys. Each key is a move that is legal from some position of its board and side, or none.
    pub fn rows(&self, number: usize) -> &[Row]
        requires page { number < length self.now.boards }
        ensures rows { slice_get self.now.rows number ≡ Some result.now }
        ensures keys { (board : Packed) → slice_get self.now.boards number ≡ Some board → All (λ row. IsKey (men_of board.cells) board.side row.key) result.now }
    {
        self.tallies[number].rows().as_slice()
    }

    /// The games of a page that are listed: the best rated ten, and of those of equal ratings the newest, the best first.
    pub fn listed(&self, number: usize) -> &[Listed] {
        match self.trails.get(number) {
            Some(trail) => trail.listing.games(),
            None => &[],
        }
    }

    /// How the first game came there that reached the page's board within the depth of the book.
    pub fn way(&self, number: usize) -> Option<&Way> {
        match self.trails.get(number) {
            Some(trail) => trail.way.as_ref(),
            None => None,
        }
    }
}

// The tallies of so many pages before any game is counted.
fn tallies_of(alloc: Global, pages: usize) -> Result<Vec<Tally>, AllocError>
    ensures count { IfOk result (λ tallies. length tallies.items ≡ pages) }
    ensures each { IfOk result (λ tallies. All IsUncounted tallies.items) }
{
    let mut tallies = Vec::new(alloc);
    for _page in 0..pages {
        tallies.push(Tally::new(alloc))?;
    }
    Ok(tallies)
}

// The trails of so many pages before any game is counted.
fn trails_of(alloc: Global, pages: usize) -> Result<Vec<Trail>, AllocError> {
    let mut trails = Vec::new(alloc);
    for _page in 0..pages {
        trails.push(Trail::new())?;
    }
    Ok(trails)
}

// Counts the games of a filter on boards.
fn count_games<G: Games, F: Files>(
    alloc: Global,
    games: &G,
    filter: &Filter,
    boards: &IndexSet<PackedBoard>,
    least: &Least,
    tallies: &mut [Tally],
    trails: &mut [Trail],
    depth: u8,
    files: &mut F,
    buf: &mut [u8],
) -> Result<(), BookError>
    requires games { length filter.now ≡ length (G.sigs games.now) }
    requires few { length filter.now ≤ 16777214 }
    requires boards { AreBoards boards.now least.now.men }
    requires homes { All (HasHomes least.now.homes.items) boards.now.keys }
    requires count { length tallies.old ≡ length boards.now.keys }
    requires each { All IsUncounted tallies.old }
    requires room { 131072 ≤ length buf.old }
    requires within { AreWithin (F.seen files.old).known (G.extents games.now) }
    ensures kept { OnOk result (AreTallies boards.now.keys (length filter.now) tallies.new) }
    ensures counted { (told : List ℕ) (list : List GameTree) → (F.seen files.old).games ≡ Some told → Holds told (G.extents games.now) (G.sigs games.now) list → OnOk result (HaveCounted boards.now.keys filter.now (G.heads games.now) list (length filter.now) tallies.new) }
    ensures unchanged { F.seen files.new ≡ F.seen files.old }
    ensures asks { F.asked files.new ≤ F.asked files.old + price filter.now (G.extents games.now) }
    ensures counts { F.faults files.old ≤ F.faults files.new }
    ensures cause { IfErr result (λ e. HasBookCause e (G.sigs games.now) (G.extents games.now) (F.seen files.old).games buf.new (F.faults files.old) (F.faults files.new)) }
{
    for i in 0..filter.len() {
        match count_game(
            alloc,
            games,
            filter.get(i),
            i,
            boards,
            least,
            tallies,
            trails,
            depth,
            files,
            buf,
        ) {
            Ok(()) => {}
            Err(error) => return Err(error),
        }
    }
    Ok(())
}

// Counts game `i`, if it is in.
fn count_game<G: Games, F: Files>(
    alloc: Global,
    games: &G,
    ply: Option<u32>,
    i: u32,
    boards: &IndexSet<PackedBoard>,
    least: &Least,
    tallies: &mut [Tally],
    trails: &mut [Trail],
    depth: u8,
    files: &mut F,
    buf: &mut [u8],
) -> Result<(), BookError>
    requires game { i < length (G.sigs games.now) }
    requires few { i ≤ 16777213 }
    requires boards { AreBoards boards.now least.now.men }
    requires homes { All (HasHomes least.now.homes.items) boards.now.keys }
    requires kept { AreTallies boards.now.keys i tallies.old }
    requires room { 131072 ≤ length buf.old }
    requires within { AreWithin (F.seen files.old).known (G.extents games.now) }
    ensures kept { OnOk result (AreTallies boards.now.keys (i + 1) tallies.new) }
    ensures counted { (told : List ℕ) (list : List GameTree) (game : GameTree) → (F.seen files.old).games ≡ Some told → Holds told (G.extents games.now) (G.sigs games.now) list → slice_get list i ≡ Some game → OnOk result (AreCountedIf boards.now.keys i ply (head_in (G.heads games.now) i) game tallies.old tallies.new) }
    ensures unchanged { F.seen files.new ≡ F.seen files.old }
    ensures asks { F.asked files.new ≤ F.asked files.old + len_if_in ply (extent_in (G.extents games.now) i).len }
    ensures counts { F.faults files.old ≤ F.faults files.new }
    ensures cause { IfErr result (λ e. HasBookCause e (G.sigs games.now) (G.extents games.now) (F.seen files.old).games buf.new (F.faults files.old) (F.faults files.new)) }
{
    let Some(_) = ply else {
        return Ok(());
    };
    let len = match games.fetch(i, files, buf) {
        Ok(len) => len,
        Err(error) => return Err(BookError::Fetch(error)),
    };
    let game = counted(games, i);
    let mut tracker = Tracker::new(depth, i, worth_of(games, i));
    let read = match count_record(
        alloc,
        boards,
        least,
        tallies,
        trails,
        &mut tracker,
        &game,
        buf.split_at(len as usize).0,
    ) {
        Ok(read) => read,
        Err(_) => return Err(BookError::Memory),
    };
    if read {
        return Ok(());
    }
    Err(BookError::Fetch(FetchError::Changed {
        game: i,
        kept: games.sig(i),
        found: None,
    }))
}

// What is counted of game `i` beside its moves.
fn counted<G: Games>(games: &G, i: u32) -> Counted
    requires game { i < length (G.sigs games.now) }
    ensures counted { result ≡ counted_of i (head_in (G.heads games.now) i) }
{
    Counted {
        number: i,
        outcome: games.outcome(i),
        white: games.white_rating(i).value,
        black: games.black_rating(i).value,
        year: games.date(i).year,
    }
}

// What game `i` is worth.
fn worth_of<G: Games>(games: &G, i: u32) -> Worth
    requires game { i < length (G.sigs games.now) }
{
    Worth::of(
        games.white_rating(i).value,
        games.black_rating(i).value,
        games.date(i),
    )
}

// No board has fewer men than so many, kings not counted.
fn fewest_in(boards: &[PackedBoard]) -> u16
    ensures fewest { All (IsBoard result) boards.now }
{
    let mut fewest = u16::MAX;
    for board in boards {
        fewest = fewest.min(men_on(board));
    }
    fewest
}

// A board has at least so many men: those that are there, if it is one of a position.
fn men_on(board: &PackedBoard) -> u16
    ensures board { IsBoard result board.now }
{
    let (cells, side) = unpack(board);
    match Position::try_new(cells, side, 0, None) {
        Ok(place) => men_in(&place),
        Err(_) => 0,
    }
}
