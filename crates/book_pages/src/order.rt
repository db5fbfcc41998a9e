//! The order of pages, and the ways that lead to them.
ghost use Rattle.std.specs.Prelude.{◌<◌, length};
ghost use Rattle.tree_rows.specs.MoveText.{IsKey};

use crate::book::Book;
use cell_core::{Board, Colour, Move, pack, unpack};
use std::alloc::{AllocError, Global};
use std::marker::Model;
use tree_rows::needed;

/// The order in which the pages of a book are found. It goes from the start on by the moves that most games made, page
/// after page. If pages are left that no page leads to, it goes on from each of them in the same way. Contracts see the pages
/// in this order.
#[derive(Drop)]
pub struct Order {
    // The pages in the order in which they are found.
    found: Vec<usize>,
    // Of each page the one from which it was found.
    came: Vec<Option<usize>>,
}

impl Model for Order {
    ghost use Rattle.std.specs.Prelude.{ℕ, List};

    ghost Value = { List ℕ };

    ghost view = { λ o. o.found.items };
}

impl Order {
    ghost use Rattle.std.specs.Prelude.{◌≡◌, ◌<◌, ℕ, All, Contains, IfOk, length};

    /// The order of the pages of a book.
    pub fn of(alloc: Global, book: &Book) -> Result<Order, AllocError>
        ensures all { IfOk result (λ order. (page : ℕ) → page < length book.now.boards → Contains order page) }
        ensures pages { IfOk result (λ order. All (λ page. page < length book.now.boards) order) }
    {
        let mut finding = Finding::new(alloc, book.len())?;
        let mut gone = 0;
        for page in 0..book.len() {
            finding.find(page, None)?;
            gone = finding.go_on(alloc, book, gone)?;
        }
        Ok(Order {
            found: finding.found,
            came: finding.came,
        })
    }

    /// The pages in this order.
    pub fn pages(&self) -> &[usize]
        ensures pages { result.now ≡ self.now }
    {
        self.found.as_slice()
    }

    /// The page from which a page was found, unless it is the start or one that no page leads to.
    pub fn came(&self, page: usize) -> Option<usize> {
        match self.came.get(page) {
            Some(came) => *came,
            None => None,
        }
    }
}

// What is found so far of the order of pages.
#[derive(Drop)]
struct Finding {
    found: Vec<usize>,
    // Of each page whether it was found.
    signs: Vec<bool>,
    came: Vec<Option<usize>>,
}

impl Finding {
    ghost use Rattle.std.specs.Prelude.{◌≡◌, ◌<◌, ℕ, Contains, IfOk, OnOk, length};
    ghost use Rattle.book_pages.specs.Order.{AreFound, GoesOn};

    // None of so many pages was found.
    fn new(alloc: Global, pages: usize) -> Result<Finding, AllocError>
        ensures none { IfOk result (λ finding. AreFound finding.signs.items finding.found.items) }
        ensures pages { IfOk result (λ finding. length finding.signs.items ≡ pages) }
    {
        let mut signs = Vec::new(alloc);
        signs.resize(pages, false)?;
        let mut came = Vec::new(alloc);
        came.resize(pages, None)?;
        Ok(Finding {
            found: Vec::new(alloc),
            signs,
            came,
        })
    }

    // Finds a page, if it was not found before.
    fn find(&mut self, page: usize, came: Option<usize>) -> Result<(), AllocError>
        requires kept { AreFound self.old.signs.items self.old.found.items }
        ensures kept { OnOk result (GoesOn self.old.signs.items self.old.found.items self.new.signs.items self.new.found.items) }
        ensures there { page < length self.old.signs.items → OnOk result (Contains self.new.found.items page) }
    {
        if page >= self.signs.len() || self.signs[page] {
            return Ok(());
        }
        self.signs[page] = true;
        put(self.came.as_mut_slice(), page, came);
        self.found.push(page)?;
        Ok(())
    }

    // Finds the pages to which the moves of pages lead, from those on that were found behind the first so many, and answers how many these
    // are then.
    fn go_on(&mut self, alloc: Global, book: &Book, gone: usize) -> Result<usize, AllocError>
        requires kept { AreFound self.old.signs.items self.old.found.items }
        ensures kept { OnOk result (GoesOn self.old.signs.items self.old.found.items self.new.signs.items self.new.found.items) }
    {
        for place in gone..book.len() {
            let Some(page) = self.found.get(place).copied() else {
                return Ok(place);
            };
            self.go_behind(alloc, book, page)?;
        }
        Ok(book.len())
    }

    // Finds the pages to which the moves of a page lead, by games falling.
    fn go_behind(&mut self, alloc: Global, book: &Book, page: usize) -> Result<(), AllocError>
        requires kept { AreFound self.old.signs.items self.old.found.items }
        ensures kept { OnOk result (GoesOn self.old.signs.items self.old.found.items self.new.signs.items self.new.found.items) }
    {
        if page >= book.len() {
            return Ok(());
        }
        for to in pages_behind(alloc, book, page)?.as_slice() {
            self.find(*to, Some(page))?;
        }
        Ok(())
    }
}

// Puts down from where a page was found.
fn put(came: &mut [Option<usize>], page: usize, from: Option<usize>) {
    if let Some(place) = came.get_mut(page) {
        *place = from;
    }
}

// The pages to which the moves of a page lead, by games falling.
fn pages_behind(alloc: Global, book: &Book, page: usize) -> Result<Vec<usize>, AllocError>
    requires page { page < length book.now.boards }
{
    let packed = book.board(page);
    let (board, side) = unpack(&packed);
    let rows = book.rows(page);
    let mut led = Vec::new(alloc);
    for row in rows {
        if let Some(to) = page_behind(book, &board, side, &row.key) {
            led.push((u32::MAX - row.games, to))?;
        }
    }
    led.sort_by_key(|one| one.0)?;
    let mut pages = Vec::with_capacity(alloc, led.len())?;
    for one in led.as_slice() {
        pages.push(one.1)?;
    }
    Ok(pages)
}

// The page to which a move from a board leads, if there is one.
fn page_behind(book: &Book, board: &Board, side: Colour, key: &Option<Move>) -> Option<usize>
    requires key { IsKey board.now side key.now }
{
    let Some(mv) = key else {
        return None;
    };
    let mut position = needed(board, side, mv);
    position.play(*mv);
    book.page_of(&pack(position.board(), position.side()))
}
