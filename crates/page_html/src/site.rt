//! The pages of a book, one after the other.
ghost use Rattle.std.specs.Prelude.{◌≡◌, ◌<◌, ◌++◌, List, OnOk, Some, length, slice_get};
ghost use Rattle.cell_core.specs.Packed.{Packed};
ghost use Rattle.game_tree.specs.Head.{IsBounded};
ghost use Rattle.game_tree.specs.Legal.{IsLegalGame};
ghost use Rattle.tree_rows.specs.declared.row.Row.{Row};
ghost use Rattle.page_html.specs.Page.{EndsWith, IsPage, last_tags, others_link, page_end};
ghost use Rattle.page_html.specs.Table.{table};

use crate::board::push_boards;
use crate::frame::{file_name, push_head, push_title_end};
use crate::game::push_game_page;
use crate::games::push_games;
use crate::moves::{Led, push_table};
use crate::openings::Openings;
use crate::place::Place;
use crate::text::push_text;
use crate::way::{Step, first_steps, push_line, push_way, short, way_to};
use book_pages::{Book, Order};
use cell_core::{Colour, Move, PackedBoard, unpack};
use chess_laws::Position;
use chess_text::write_fen;
use game_tree::{Game, Head};
use sig_index::Games;
use std::alloc::{AllocError, Global};
use std::marker::Model;

/// What stands before the links to the pages that no page leads to.
const OTHERS: &[u8] =
    b"<header>\n<nav class=\"way\" aria-label=\"Moves\"><a href=\"index.html\">Start</a></nav>\n</header>\n<h1>Positions that no other page leads to</h1>\n<p>Enough games reach each of them, but too few by any one move.</p>\n<ul>\n";

/// The pages of a book that are made, in their order, with what is known of those that were made. Contracts see the book.
#[derive(Drop)]
pub struct Site<'a> {
    // The name of the base.
    name: &'a [u8],
    book: &'a Book,
    order: &'a Order,
    openings: &'a Openings<'a>,
    // The side that stands below on the boards.
    below: Colour,
    // The side to move at the start.
    side: Colour,
    // One for each page.
    places: Vec<Place<'a>>,
    // The name of the file of each page.
    files: Vec<Vec<u8>>,
    // The boards of the initial position, with which most games begin.
    start_boards: Vec<u8>,
}

impl<'a> Model for Site<'a> {
    ghost use Rattle.book_pages.specs.Book.{Pages};

    ghost Value = { Pages };

    ghost view = { λ s. s.book.now };
}

impl<'a> Site<'a> {
    ghost use Rattle.std.specs.Prelude.{◌≡◌, ◌<◌, ◌++◌, IfOk, List, OnOk, Some, length, slice_get};
    ghost use Rattle.cell_core.specs.Packed.{Packed};
    ghost use Rattle.game_tree.specs.Head.{IsBounded};
    ghost use Rattle.game_tree.specs.Legal.{IsLegalGame};
    ghost use Rattle.tree_rows.specs.declared.row.Row.{Row};
    ghost use Rattle.page_html.specs.Page.{EndsWith, IsPage};
    ghost use Rattle.page_html.specs.Table.{table};

    /// No page of a book was made yet. Its pages are in this order, it is one of the base of this name, and this side stands below on its
    /// boards.
    pub fn new(
        alloc: Global,
        name: &'a [u8],
        book: &'a Book,
        order: &'a Order,
        openings: &'a Openings<'a>,
        below: Colour,
    ) -> Result<Site<'a>, AllocError>
        ensures book { IfOk result (λ site. site ≡ book.now) }
    {
        let mut places = Vec::new(alloc);
        let mut files = Vec::new(alloc);
        for page in 0..book.len() {
            places.push(Place::unknown())?;
            files.push(file_of(alloc, book, page)?)?;
        }
        let mut start_boards = Vec::new(alloc);
        push_boards(&mut start_boards, Position::start().board(), below, &None)?;
        Ok(Site {
            name,
            book,
            order,
            openings,
            below,
            side: first_side(book),
            places,
            files,
            start_boards,
        })
    }

    /// Adds a page. Those before it in their order have been made.
    ///
    /// It fails only for want of memory, and a part of the page may then have been added.
    pub fn push_page<G: Games>(
        &mut self,
        alloc: Global,
        out: &mut Vec<u8>,
        games: &G,
        page: usize,
    ) -> Result<(), AllocError>
        requires page { page < length self.old.boards }
        ensures page { (board : Packed) (rows : List Row) → slice_get self.old.boards page ≡ Some board → slice_get self.old.rows page ≡ Some rows → OnOk result (IsPage self.old.boards (G.heads games.now) board rows out.new.items) }
        ensures same { self.new ≡ self.old }
    {
        self.push_body(alloc, out, page)?;
        push_games(out, games, self.book.listed(page))?;
        push_end(out, self.leads_to_others(page))?;
        Ok(())
    }

    // Whether a page has a link to the page of the positions that no page leads to: that of the start does, if there are any.
    fn leads_to_others(&self, page: usize) -> bool {
        page == 0 && self.has_others()
    }

    /// Whether there is a page beside the start that no page leads to.
    pub fn has_others(&self) -> bool {
        self.order
            .pages()
            .iter()
            .any(|page| *page > 0 && self.order.came(*page).is_none())
    }

    /// Adds the page of those pages that no page leads to, which have all been made.
    pub fn push_others(&self, alloc: Global, out: &mut Vec<u8>) -> Result<(), AllocError> {
        push_head(out)?;
        out.extend_from_slice(b"Positions that no other page leads to - ")?;
        push_title_end(out, self.name)?;
        out.extend_from_slice(OTHERS)?;
        for page in self.order.pages() {
            self.push_other(alloc, out, *page)?;
        }
        out.extend_from_slice(b"</ul>\n</body>\n</html>\n")
    }

    /// Adds the page of a game.
    pub fn push_game(
        &self,
        alloc: Global,
        out: &mut Vec<u8>,
        head: &Head,
        game: &Game,
    ) -> Result<(), AllocError>
        requires legal { IsLegalGame game.now }
        requires bounded { IsBounded head.now }
    {
        push_game_page(alloc, out, self, head, game)
    }

    /// What stands above each page.
    pub(crate) fn name(&self) -> &'a [u8] {
        self.name
    }

    /// The side that stands below on the boards.
    pub(crate) fn below(&self) -> Colour {
        self.below
    }

    /// The book.
    pub(crate) fn book(&self) -> &'a Book {
        self.book
    }

    /// The order of its pages.
    pub(crate) fn order(&self) -> &'a Order {
        self.order
    }

    /// The side to move at the start.
    pub(crate) fn side(&self) -> Colour {
        self.side
    }

    /// The text of the move by which a page was found.
    pub(crate) fn text(&self, page: usize) -> &[u8] {
        match self.places.get(page) {
            Some(place) => place.text.as_slice(),
            None => &[],
        }
    }

    // Tells what is known of a page, if no page leads to it: what its first game tells, or its board.
    fn begin(&mut self, page: usize)
        ensures same { self.new ≡ self.old }
    {
        if self.order.came(page).is_some() {
            return;
        }
        let place = match (self.book.way(page), self.board(page)) {
            (Some(way), _) => Place::behind(way, self.openings),
            (None, Some(board)) => Place::on(&board, self.openings),
            (None, None) => return,
        };
        if let Some(known) = self.places.get_mut(page) {
            *known = place;
        }
    }

    // Tells what is known of the page that a move of a page leads to, if it was found by that.
    fn tell(&mut self, page: usize, led: &Led)
        ensures same { self.new ≡ self.old }
    {
        if self.order.came(led.page) != Some(page) {
            return;
        }
        let next = match self.places.get(page) {
            Some(place) => place.next(
                &led.mv,
                short(led.text.as_slice()),
                &led.board,
                self.openings,
            ),
            None => return,
        };
        if let Some(known) = self.places.get_mut(led.page) {
            *known = next;
        }
    }

    // The position of a page, if its board is one of a position.
    fn position(&self, page: usize) -> Option<&Position> {
        match self.places.get(page) {
            Some(place) => place.position.as_ref(),
            None => None,
        }
    }

    // The move that led to a page.
    fn last_move(&self, page: usize) -> Option<Move> {
        match self.places.get(page) {
            Some(place) => place.last,
            None => None,
        }
    }

    /// Adds the beginning of a link to a page.
    pub(crate) fn push_page_link(&self, out: &mut Vec<u8>, page: usize) -> Result<(), AllocError> {
        out.extend_from_slice(b"<a href=\"")?;
        self.push_file(out, page)?;
        out.extend_from_slice(b"\">")
    }

    /// Adds the name of the file of a page.
    pub(crate) fn push_file(&self, out: &mut Vec<u8>, page: usize) -> Result<(), AllocError> {
        match self.files.get(page) {
            Some(file) => out.extend_from_slice(file.as_slice()),
            None => Ok(()),
        }
    }

    /// The boards of the initial position.
    pub(crate) fn start_boards(&self) -> &[u8] {
        self.start_boards.as_slice()
    }

    // The board of a page, if there is one.
    fn board(&self, page: usize) -> Option<PackedBoard> {
        if page < self.book.len() {
            Some(self.book.board(page))
        } else {
            None
        }
    }

    // Adds a link to a page beside the start, if no page leads to it.
    fn push_other(&self, alloc: Global, out: &mut Vec<u8>, page: usize) -> Result<(), AllocError> {
        if page == 0 || self.order.came(page).is_some() {
            return Ok(());
        }
        out.extend_from_slice(b"<li>")?;
        self.push_page_link(out, page)?;
        push_line(out, self.side, first_steps(alloc, self, page)?.as_slice())?;
        out.extend_from_slice(b"</a></li>\n")
    }

    // Adds a page up to the games.
    fn push_body(&mut self, alloc: Global, out: &mut Vec<u8>, page: usize) -> Result<(), AllocError>
        requires page { page < length self.old.boards }
        ensures table { (board : Packed) (rows : List Row) → slice_get self.old.boards page ≡ Some board → slice_get self.old.rows page ≡ Some rows → OnOk result (EndsWith (table self.old.boards board rows) out.new.items) }
        ensures same { self.new ≡ self.old }
    {
        self.begin(page);
        let steps = way_to(alloc, self, page)?;
        self.push_front(out, steps.as_slice(), page)?;
        let (board, side) = unpack(&self.book.board(page));
        push_boards(out, &board, self.below, &self.last_move(page))?;
        self.push_copies(alloc, out, steps.as_slice(), page)?;
        out.extend_from_slice(b"</div>\n<div class=\"tables\">\n")?;
        out.extend_from_slice(to_move(side))?;
        self.push_opening(out, page)?;
        self.push_moves(alloc, out, page)?;
        Ok(())
    }

    // Adds what stands before the board of a page to which these moves lead.
    fn push_front(&self, out: &mut Vec<u8>, steps: &[Step], page: usize) -> Result<(), AllocError> {
        push_head(out)?;
        if !steps.is_empty() {
            push_line(out, self.side, steps)?;
            out.extend_from_slice(b" - ")?;
        }
        push_title_end(out, self.name)?;
        out.extend_from_slice(b"<header>\n<p>")?;
        push_text(out, self.name)?;
        out.extend_from_slice(b"</p>\n<nav class=\"way\" aria-label=\"Moves\">")?;
        self.push_start(out, page)?;
        push_way(out, self, steps, page)?;
        out.extend_from_slice(b"</nav>\n</header>\n<main>\n<div class=\"boards\">\n")
    }

    // Adds a link to the start, but on its own page.
    fn push_start(&self, out: &mut Vec<u8>, page: usize) -> Result<(), AllocError> {
        if page == 0 {
            return out.extend_from_slice(b"<b>Start</b>");
        }
        out.extend_from_slice(b"<a href=\"index.html\">Start</a>")
    }

    // Adds the position of a page and the moves that lead there, to be copied.
    fn push_copies(
        &self,
        alloc: Global,
        out: &mut Vec<u8>,
        steps: &[Step],
        page: usize,
    ) -> Result<(), AllocError> {
        out.extend_from_slice(b"<div class=\"copies\">\n")?;
        if let Some(position) = self.position(page) {
            out.extend_from_slice(b"<label>FEN <input readonly value=\"")?;
            push_text(out, write_fen(alloc, position)?.as_bytes())?;
            out.extend_from_slice(b"\"></label>\n")?;
        }
        if !steps.is_empty() {
            out.extend_from_slice(b"<label>Moves <input readonly value=\"")?;
            push_line(out, self.side, steps)?;
            out.extend_from_slice(b"\"></label>\n")?;
        }
        out.extend_from_slice(b"</div>\n")
    }

    // Adds the code and the name of the last opening on the way to a page, if it has one.
    fn push_opening(&self, out: &mut Vec<u8>, page: usize) -> Result<(), AllocError> {
        let Some(place) = self.places.get(page) else {
            return Ok(());
        };
        let Some(opening) = place.opening else {
            return Ok(());
        };
        out.extend_from_slice(b"<p class=\"opening\"><b>")?;
        push_text(out, opening.code)?;
        out.extend_from_slice(b"</b> ")?;
        push_text(out, opening.name)?;
        out.extend_from_slice(b"</p>\n")
    }

    // Adds the table of the moves of a page, and tells the pages that they lead to what is known of these.
    fn push_moves(
        &mut self,
        alloc: Global,
        out: &mut Vec<u8>,
        page: usize,
    ) -> Result<(), AllocError>
        requires page { page < length self.old.boards }
        ensures table { (board : Packed) (rows : List Row) → slice_get self.old.boards page ≡ Some board → slice_get self.old.rows page ≡ Some rows → OnOk result (out.new.items ≡ out.old.items ++ table self.old.boards board rows) }
        ensures same { self.new ≡ self.old }
    {
        let mut led = Vec::new(alloc);
        push_table(alloc, out, &mut led, self.book, page)?;
        for one in led.as_slice() {
            self.tell(page, one);
        }
        Ok(())
    }
}

// Adds the end of a page, which may have a link to the pages that no page leads to.
#[tactic(auto, using(std::proofs::Common::append_assoc), unfolding(crate::specs::Page::page_end))]
fn push_end(out: &mut Vec<u8>, others: bool) -> Result<(), AllocError>
    ensures added { OnOk result (out.new.items ≡ out.old.items ++ page_end others) }
{
    out.extend_from_slice(others_link(others))?;
    out.extend_from_slice(last_tags())
}

// What each page of a position ends with.
#[tactic(auto, unfolding(crate::specs::Page::last_tags))]
fn last_tags() -> &'static [u8]
    ensures text { result.now ≡ last_tags }
{
    b"</div>\n</main>\n</body>\n</html>\n"
}

// The link to the page of the positions that no page leads to, where a page has it.
#[tactic(auto, unfolding(crate::specs::Page::others_link))]
fn others_link(others: bool) -> &'static [u8]
    ensures link { result.now ≡ others_link others }
{
    if others {
        b"<p><a href=\"others.html\">Positions that no other page leads to</a></p>\n"
    } else {
        b""
    }
}

// The name of the file of a page.
fn file_of(alloc: Global, book: &Book, page: usize) -> Result<Vec<u8>, AllocError>
    requires page { page < length book.now.boards }
{
    let mut file = Vec::new(alloc);
    file_name(&mut file, &book.board(page))?;
    Ok(file)
}

// The side to move on the first page.
fn first_side(book: &Book) -> Colour {
    if book.len() == 0 {
        return Colour::White;
    }
    unpack(&book.board(0)).1
}

// Which side is to move.
fn to_move(side: Colour) -> &'static [u8] {
    match side {
        Colour::White => b"<h1>White to move</h1>\n",
        Colour::Black => b"<h1>Black to move</h1>\n",
    }
}
