//! The page of a game.
ghost use Rattle.std.specs.Prelude.{◌<◌};
ghost use Rattle.chess_laws.specs.Step.{Legal};
ghost use Rattle.game_tree.specs.Head.{IsBounded};
ghost use Rattle.game_tree.specs.Legal.{IsLegalGame};

use crate::board::{letter, push_boards, push_square};
use crate::cutting::cut;
use crate::frame::{push_head, push_title_end};
use crate::games::push_known;
use crate::numbers::push_number;
use crate::site::Site;
use crate::text::push_text;
use crate::way::{number_at, ply_of, push_move_number};
use cell_core::{Board, Kind, Move, Square, pack};
use chess_laws::Position;
use chess_text::{play_san, write_fen};
use game_tree::{Game, Head, Node, Rating, eco_text};
use pgn_write::write_game;
use std::alloc::{AllocError, Global};

/// Adds the page of a game: its players and what is known of it, its main line, which is played through on a board, and its text in Portable
/// Game Notation.
pub(crate) fn push_game_page(
    alloc: Global,
    out: &mut Vec<u8>,
    site: &Site<'_>,
    head: &Head,
    game: &Game,
) -> Result<(), AllocError>
    requires legal { IsLegalGame game.now }
    requires bounded { IsBounded head.now }
{
    push_front(out, site, head)?;
    push_start(out, site, &game.start)?;
    out.extend_from_slice(b"</div>\n<div class=\"tables\">\n")?;
    push_facts(out, head)?;
    push_line(alloc, out, site, game)?;
    out.extend_from_slice(b"<h2>PGN</h2>\n<pre class=\"pgn\" tabindex=\"0\">")?;
    push_pgn(alloc, out, head, game)?;
    out.extend_from_slice(b"</pre>\n</div>\n</main>\n</body>\n</html>\n")
}

// Adds what stands before the board.
fn push_front(out: &mut Vec<u8>, site: &Site<'_>, head: &Head) -> Result<(), AllocError> {
    push_head(out)?;
    push_players(out, head)?;
    out.extend_from_slice(b", ")?;
    out.extend_from_slice(head.result.text())?;
    out.extend_from_slice(b" - ")?;
    push_title_end(out, site.name())?;
    out.extend_from_slice(b"<header>\n<p>")?;
    push_text(out, site.name())?;
    out.extend_from_slice(
        b"</p>\n<nav class=\"way\" aria-label=\"Moves\"><a href=\"index.html\">Start</a></nav>\n</header>\n<main>\n<div class=\"boards\">\n",
    )
}

// Adds the board at the start of a game.
fn push_start(out: &mut Vec<u8>, site: &Site<'_>, start: &Position) -> Result<(), AllocError> {
    if start.is_start() {
        return out.extend_from_slice(site.start_boards());
    }
    push_boards(out, start.board(), site.below(), &None)
}

// Adds the names of the players.
fn push_players(out: &mut Vec<u8>, head: &Head) -> Result<(), AllocError> {
    push_text(out, head.white.as_bytes())?;
    out.extend_from_slice(b" - ")?;
    push_text(out, head.black.as_bytes())
}

// Adds what is known of a game.
fn push_facts(out: &mut Vec<u8>, head: &Head) -> Result<(), AllocError>
    requires bounded { IsBounded head.now }
{
    out.extend_from_slice(b"<h1>")?;
    push_players(out, head)?;
    out.extend_from_slice(b"</h1>\n<p class=\"facts\"><b>")?;
    out.extend_from_slice(head.result.text())?;
    out.extend_from_slice(b"</b>")?;
    push_ratings(out, &head.white_rating, &head.black_rating)?;
    if head.eco > 0 {
        out.extend_from_slice(b" &#183; ")?;
        out.extend_from_slice(eco_text(head.eco).as_slice())?;
    }
    out.extend_from_slice(b"<br>")?;
    push_text(out, head.event.as_bytes())?;
    out.extend_from_slice(b" &#183; ")?;
    push_text(out, head.site.as_bytes())?;
    out.extend_from_slice(b" &#183; ")?;
    out.extend_from_slice(head.date.text().as_slice())?;
    out.extend_from_slice(b" &#183; round ")?;
    push_text(out, head.round.as_bytes())?;
    out.extend_from_slice(b"</p>\n")
}

// Adds the ratings of the players, if one of them is known.
fn push_ratings(out: &mut Vec<u8>, white: &Rating, black: &Rating) -> Result<(), AllocError> {
    if white.value == 0 && black.value == 0 {
        return Ok(());
    }
    out.extend_from_slice(b" &#183; ")?;
    push_known(out, white.value)?;
    out.extend_from_slice(b" - ")?;
    push_known(out, black.value)
}

// Adds the main line, with the position at its start.
fn push_line(
    alloc: Global,
    out: &mut Vec<u8>,
    site: &Site<'_>,
    game: &Game,
) -> Result<(), AllocError> {
    out.extend_from_slice(b"<p class=\"line\" data-start=\"")?;
    out.extend_from_slice(write_fen(alloc, &game.start)?.as_bytes())?;
    out.extend_from_slice(b"\">\n")?;
    push_moves(out, site, &game.start, game.line.as_slice())?;
    out.extend_from_slice(b"</p>\n")
}

// Adds the moves of a line from a position.
fn push_moves(
    out: &mut Vec<u8>,
    site: &Site<'_>,
    start: &Position,
    line: &[Node],
) -> Result<(), AllocError> {
    let mut place = *start;
    let mut ply = 0u32;
    for node in line {
        if !place.is_legal(node.mv) {
            return Ok(());
        }
        if let Some(number) = number_at(ply.saturating_add(ply_of(start.side())), start.side()) {
            out.extend_from_slice(b"<span>")?;
            push_move_number(out, number)?;
            out.extend_from_slice(b"</span> ")?;
        }
        ply = ply.saturating_add(1);
        push_move(out, site, &mut place, &node.mv, ply)?;
    }
    Ok(())
}

// Adds a move and plays it: a link to the page of the position behind it, if that has one, with the squares that it changes.
fn push_move(
    out: &mut Vec<u8>,
    site: &Site<'_>,
    place: &mut Position,
    mv: &Move,
    ply: u32,
) -> Result<(), AllocError>
    requires legal { Legal place.old mv.now }
{
    let before = *place.board();
    let text = play_san(place, mv);
    out.extend_from_slice(b"<a id=\"m")?;
    push_number(out, u128::from(ply))?;
    let packed = pack(place.board(), place.side());
    match site.book().page_of(&packed) {
        Some(page) => {
            out.extend_from_slice(b"\" href=\"")?;
            site.push_file(out, page)?;
        }
        None => {
            out.extend_from_slice(b"\" href=\"#m")?;
            push_number(out, u128::from(ply))?;
        }
    }
    out.extend_from_slice(b"\" data-go=\"")?;
    push_square(out, mv.from.index())?;
    push_square(out, mv.to.index())?;
    push_changes(out, &before, place.board(), mv)?;
    out.extend_from_slice(b"\">")?;
    out.extend_from_slice(text.as_slice())?;
    out.extend_from_slice(b"</a>\n")
}

// Adds the squares that a move changes, in their order, each with the letter of the man that stands there behind it. They are its origin and
// its target, and on the rank of the origin the squares of the rook with which the king castles, or of the pawn that is taken en passant.
fn push_changes(
    out: &mut Vec<u8>,
    before: &Board,
    after: &Board,
    mv: &Move,
) -> Result<(), AllocError> {
    let from = mv.from.index();
    let to = mv.to.index();
    if to / 8 < from / 8 {
        push_change(out, before, after, to)?;
    }
    push_rank(out, before, after, mv)?;
    if to / 8 > from / 8 {
        push_change(out, before, after, to)?;
    }
    Ok(())
}

// Adds the squares that a move changes on the rank of its origin.
fn push_rank(
    out: &mut Vec<u8>,
    before: &Board,
    after: &Board,
    mv: &Move,
) -> Result<(), AllocError> {
    let from = mv.from.index();
    if is_plain(before, mv) && mv.to.index() / 8 != from / 8 {
        return push_change(out, before, after, from);
    }
    for file in 0..8u8 {
        push_change(out, before, after, from / 8 * 8 + file)?;
    }
    Ok(())
}

// Whether a move changes no square but its origin and its target: that of any man but a pawn which takes does, if it leaves its rank.
fn is_plain(before: &Board, mv: &Move) -> bool {
    let moves_along = mv.from.index() % 8 == mv.to.index() % 8;
    match before.at(mv.from) {
        Some(man) => man.kind != Kind::Pawn || moves_along,
        None => false,
    }
}

// Adds a square, if two boards differ on it, with the letter of the man that stands there on the second.
fn push_change(out: &mut Vec<u8>, before: &Board, after: &Board, s: u8) -> Result<(), AllocError>
    requires square { s < 64 }
{
    let man = after.at(Square::at(s));
    if man == before.at(Square::at(s)) {
        return Ok(());
    }
    let (file, rank) = (b'a' + s % 8, b'1' + s / 8);
    match man {
        Some(man) => out.extend_from_slice(&[b' ', file, rank, letter(man)]),
        None => out.extend_from_slice(&[b' ', file, rank]),
    }
}

// Adds the text of a game in Portable Game Notation, line by line.
fn push_pgn(alloc: Global, out: &mut Vec<u8>, head: &Head, game: &Game) -> Result<(), AllocError>
    requires legal { IsLegalGame game.now }
    requires bounded { IsBounded head.now }
{
    let mut text = Vec::new(alloc);
    write_game(alloc, head.fields(), head.tags.as_slice(), game, &mut text)?;
    let mut rest = text.as_slice();
    while !rest.is_empty() {
        let (line, behind) = cut(rest, b'\n');
        push_text(out, line)?;
        out.extend_from_slice(b"\n")?;
        rest = behind;
    }
    Ok(())
}
