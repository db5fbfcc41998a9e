//! A book of the games of a base.
ghost use Rattle.std.specs.Prelude.{◌≡◌, ◌≤◌, ◌<◌, ℕ, IfOk, IfSome, List, OnOk, Some, length};
ghost use Rattle.base_core.specs.Represents.{IsSound, extents_of, heads_of, sigs_of};
ghost use Rattle.game_tree.specs.Game.{GameTree};
ghost use Rattle.sig_index.specs.Games.{AreWithin, Holds};
ghost use Rattle.book_pages.specs.Book.{ShowTrees};
ghost use Rattle.book_pages.specs.Reached.{IsLeast, book_boards};
ghost use Rattle.scid_page.specs.Shelf.{HasPages, IsBook};

use crate::end::End;
use crate::folder::Folder;
use crate::pages::{title, write_games, write_others, write_pages, write_start};
use crate::shelf::Shelf;
use crate::words::Wanted;
use base_core::Base;
use base_files::Files;
use book_pages::{Book, Order, Reach, find_boards};
use game_filter::Filter;
use head_search::HeadQuery;
use page_html::{Openings, Site};
use std::alloc::Global;

/// What is asked for, with what was read of it.
#[derive(Drop)]
pub struct Asked<'a> {
    pub wanted: &'a Wanted<'a>,
    pub query: Option<HeadQuery>,
    pub openings: Openings<'a>,
    pub folder: Folder<'a>,
}

/// Makes the book that is asked for of games of a base, and puts its files on a shelf. Answers how many positions have a page, and how many
/// games reach each at least.
pub fn make_book<F: Files, S: Shelf>(
    alloc: Global,
    asked: &Asked<'_>,
    base: &Base,
    games: &Filter,
    files: &mut F,
    shelf: &mut S,
    block: &mut [u8],
) -> Result<(usize, u64), End>
    requires games { length games.now ≡ length base.now.entries }
    requires sound { IsSound base.now }
    requires within { AreWithin (F.seen files.old).known (extents_of base.now) }
    requires end { base.now.end ≤ (F.seen files.old).known }
    requires room { length block.old ≡ 131072 }
    // Over a games file that is told and holds the records of these games, on a shelf that tells its files.
    ensures book { (told : List ℕ) (list : List GameTree) → (F.seen files.old).games ≡ Some told → Holds told (extents_of base.now) (sigs_of base.now) list → IfOk result (λ made. IfSome (S.told shelf.new) (IsBook asked.now.wanted.now.reach games.now (heads_of base.now) list made.1)) }
{
    let read = read_book(alloc, base, games, &asked.wanted.reach, files, block)?;
    write_book(alloc, asked, base, &read.0, files, shelf, block)?;
    Ok((read.0.len(), read.1))
}

// Puts the files of a book on a shelf, the page of the start last.
fn write_book<F: Files, S: Shelf>(
    alloc: Global,
    asked: &Asked<'_>,
    base: &Base,
    book: &Book,
    files: &mut F,
    shelf: &mut S,
    block: &mut [u8],
) -> Result<(), End>
    requires start { 0 < length book.now.boards }
    requires end { base.now.end ≤ (F.seen files.old).known }
    requires room { length block.old ≡ 131072 }
    ensures pages { OnOk result (IfSome (S.told shelf.new) (HasPages book.now (heads_of base.now))) }
{
    let title = title(alloc, asked.wanted.base, asked.wanted.only)?;
    let order = Order::of(alloc, book)?;
    let mut site = Site::new(
        alloc,
        title.as_bytes(),
        book,
        &order,
        &asked.openings,
        asked.wanted.below,
    )?;
    let first = write_pages(alloc, shelf, &mut site, base, book, order.pages())?;
    write_others(alloc, shelf, &site)?;
    write_games(alloc, shelf, &site, base, book, files, block)?;
    write_start(alloc, shelf, book, first.as_slice())?;
    Ok(())
}

// Counts the pages of a base over games of it.
#[tactic(auto, using(std::proofs::lemmas::Option::slice_get_within))]
fn read_book<F: Files>(
    alloc: Global,
    base: &Base,
    games: &Filter,
    reach: &Reach,
    files: &mut F,
    block: &mut [u8],
) -> Result<(Book, u64), End>
    requires games { length games.now ≡ length base.now.entries }
    requires sound { IsSound base.now }
    requires within { AreWithin (F.seen files.old).known (extents_of base.now) }
    requires room { length block.old ≡ 131072 }
    ensures boards { (told : List ℕ) (list : List GameTree) → (F.seen files.old).games ≡ Some told → Holds told (extents_of base.now) (sigs_of base.now) list → IfOk result (λ read. read.0.boards ≡ book_boards reach.now games.now list read.1) }
    ensures least { (told : List ℕ) (list : List GameTree) → (F.seen files.old).games ≡ Some told → Holds told (extents_of base.now) (sigs_of base.now) list → IfOk result (λ read. IsLeast reach.now games.now list read.1) }
    ensures rows { (told : List ℕ) (list : List GameTree) → (F.seen files.old).games ≡ Some told → Holds told (extents_of base.now) (sigs_of base.now) list → IfOk result (λ read. ShowTrees games.now (heads_of base.now) list read.0) }
    ensures start { IfOk result (λ read. 0 < length read.0.boards) }
    ensures unchanged { F.seen files.new ≡ F.seen files.old }
    ensures room { length block.new ≡ 131072 }
{
    let found = match find_boards(alloc, base, games, reach, files, block) {
        Ok(found) => found,
        Err(error) => return Err(End::from(error)),
    };
    let least = found.least;
    match Book::read(alloc, base, games, found.boards, reach.depth, files, block) {
        Ok(book) => Ok((book, least)),
        Err(error) => Err(End::from(error)),
    }
}
