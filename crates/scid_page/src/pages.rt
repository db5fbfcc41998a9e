//! The pages of a book, written into a folder.
ghost use Rattle.std.specs.Prelude.{◌≡◌, ◌≤◌, ◌<◌, All, IfOk, IfSome, List, OnOk, length};
ghost use Rattle.game_tree.specs.declared.head.Head.{Head as PlainHead};
ghost use Rattle.scid_page.specs.Putting.{HasPageAt, HaveFirst, IsPageAt, Stay};

use crate::end::End;
use crate::shelf::Shelf;
use base_core::Base;
use base_files::Files;
use book_pages::Book;
use page_html::{SCRIPT, STYLE, Site, file_name, game_file_name};
use sig_index::Games;
use std::alloc::{AllocError, Global};

/// What stands above each page: the name of the base without its folder, and the items by which its games were chosen.
pub fn title(alloc: Global, base: &str, only: Option<&str>) -> Result<String, AllocError> {
    let name = last_part(base);
    match only {
        Some(items) => format!(in alloc; "{name}: {items}"),
        None => format!(in alloc; "{name}"),
    }
}

/// Puts the pages of a book on a shelf, but for that of the start, which it gives.
pub fn write_pages<S: Shelf, G: Games>(
    alloc: Global,
    shelf: &mut S,
    site: &mut Site<'_>,
    games: &G,
    book: &Book,
    order: &[usize],
) -> Result<Vec<u8>, End>
    requires site { site.old ≡ book.now }
    requires start { 0 < length book.now.boards }
    requires pages { All (λ page. page < length book.now.boards) order.now }
    ensures first { IfOk result (λ first. IsPageAt book.now (G.heads games.now) 0 first.items) }
    ensures rest { OnOk result (IfSome (S.told shelf.new) (HaveFirst book.now (G.heads games.now) order.now (length order.now))) }
{
    let mut first = Vec::new(alloc);
    site.push_page(alloc, &mut first, games, 0)?;
    shelf.put(b"style.css", STYLE)?;
    shelf.put(b"book.js", SCRIPT)?;
    write_rest(alloc, shelf, site, games, book, order)?;
    Ok(first)
}

// Puts pages on a shelf, but for that of the start.
fn write_rest<S: Shelf, G: Games>(
    alloc: Global,
    shelf: &mut S,
    site: &mut Site<'_>,
    games: &G,
    book: &Book,
    order: &[usize],
) -> Result<(), End>
    requires site { site.old ≡ book.now }
    requires pages { All (λ page. page < length book.now.boards) order.now }
    ensures rest { OnOk result (IfSome (S.told shelf.new) (HaveFirst book.now (G.heads games.now) order.now (length order.now))) }
{
    let mut text = Vec::new(alloc);
    for page in order {
        write_page(alloc, shelf, site, games, book, &mut text, *page)?;
    }
    Ok(())
}

// Puts a page on a shelf, unless it is that of the start. It is made in `text`.
fn write_page<S: Shelf, G: Games>(
    alloc: Global,
    shelf: &mut S,
    site: &mut Site<'_>,
    games: &G,
    book: &Book,
    text: &mut Vec<u8>,
    page: usize,
) -> Result<(), End>
    requires site { site.old ≡ book.now }
    requires page { page < length book.now.boards }
    ensures site { site.new ≡ site.old }
    ensures stay { OnOk result (Stay (S.told shelf.old) (S.told shelf.new)) }
    ensures page { (page ≡ 0 → ⊥) → OnOk result (IfSome (S.told shelf.new) (HasPageAt book.now (G.heads games.now) page)) }
{
    if page == 0 {
        return Ok(());
    }
    text.clear();
    site.push_page(alloc, text, games, page)?;
    put_page(alloc, shelf, book, page, text.as_slice())?;
    Ok(())
}

// Puts the text of a page on a shelf, under the name of its board.
fn put_page<S: Shelf>(
    alloc: Global,
    shelf: &mut S,
    book: &Book,
    page: usize,
    text: &[u8],
) -> Result<(), End>
    requires page { page < length book.now.boards }
    ensures stay { OnOk result (Stay (S.told shelf.old) (S.told shelf.new)) }
    ensures page { (heads : List PlainHead) → IsPageAt book.now heads page text.now → OnOk result (IfSome (S.told shelf.new) (HasPageAt book.now heads page)) }
{
    let mut name = Vec::new(alloc);
    file_name(&mut name, &book.board(page))?;
    shelf.put(name.as_slice(), text)?;
    shelf.has_one_of(book.len());
    Ok(())
}

/// Puts the page of the positions that no page leads to on a shelf, if there are any.
pub fn write_others<S: Shelf>(alloc: Global, shelf: &mut S, site: &Site<'_>) -> Result<(), End>
    ensures stay { OnOk result (Stay (S.told shelf.old) (S.told shelf.new)) }
{
    if !site.has_others() {
        return Ok(());
    }
    let mut text = Vec::new(alloc);
    site.push_others(alloc, &mut text)?;
    shelf.put(b"others.html", text.as_slice())?;
    Ok(())
}

/// Puts the page of the start on a shelf, under the name of its board too.
pub fn write_start<S: Shelf>(
    alloc: Global,
    shelf: &mut S,
    book: &Book,
    text: &[u8],
) -> Result<(), End>
    requires start { 0 < length book.now.boards }
    ensures stay { OnOk result (Stay (S.told shelf.old) (S.told shelf.new)) }
    ensures page { (heads : List PlainHead) → IsPageAt book.now heads 0 text.now → OnOk result (IfSome (S.told shelf.new) (HasPageAt book.now heads 0)) }
{
    put_page(alloc, shelf, book, 0, text)?;
    shelf.put(b"index.html", text)?;
    Ok(())
}

/// Puts the page of each game that a page lists on a shelf.
pub fn write_games<F: Files, S: Shelf>(
    alloc: Global,
    shelf: &mut S,
    site: &Site<'_>,
    base: &Base,
    book: &Book,
    files: &mut F,
    block: &mut [u8],
) -> Result<(), End>
    requires end { base.now.end ≤ (F.seen files.old).known }
    requires room { length block.old ≡ 131072 }
    ensures stay { OnOk result (Stay (S.told shelf.old) (S.told shelf.new)) }
{
    let numbers = listed(alloc, book)?;
    let mut page = Vec::new(alloc);
    for number in numbers.as_slice() {
        page.clear();
        push_game(alloc, &mut page, site, base, *number, files, block)?;
        let mut name = Vec::new(alloc);
        game_file_name(&mut name, *number)?;
        shelf.put(name.as_slice(), page.as_slice())?;
    }
    Ok(())
}

// Adds the page of a game, whose record is read.
fn push_game<F: Files>(
    alloc: Global,
    page: &mut Vec<u8>,
    site: &Site<'_>,
    base: &Base,
    number: u32,
    files: &mut F,
    block: &mut [u8],
) -> Result<(), End>
    requires end { base.now.end ≤ (F.seen files.old).known }
    requires room { length block.old ≡ 131072 }
    ensures unchanged { F.seen files.new ≡ F.seen files.old }
    ensures room { length block.new ≡ 131072 }
{
    let (head, game) = match base.game(alloc, number, files, block) {
        Ok(read) => read,
        Err(error) => return Err(End::from(error)),
    };
    site.push_game(alloc, page, &head, &game)?;
    Ok(())
}

// The numbers of the games that pages list, each once.
fn listed(alloc: Global, book: &Book) -> Result<Vec<u32>, AllocError> {
    let mut numbers = Vec::new(alloc);
    for page in 0..book.len() {
        for game in book.listed(page) {
            numbers.push(game.number)?;
        }
    }
    numbers.sort_unstable();
    numbers.dedup();
    Ok(numbers)
}

// The last part of a path.
fn last_part(path: &str) -> &str {
    match path.rsplit_once("/") {
        Some((_, last)) => last,
        None => path,
    }
}
