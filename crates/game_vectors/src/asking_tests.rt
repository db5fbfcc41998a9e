//! What a search asks of the games file, which no text of the program shows.
use super::one_game::one_game;
use cell_core::Colour;
use chess_text::read_board;
use game_filter::{Filter, Op};
use pos_search::{Mode, PosQuery, search};
use std::alloc::Global;
use std::test::Fail;

// {Start} 1. e4 $1 $14 {Best} (1. d4 d5 (1... Nf6)) 1... e5, and the board after 1. d4 Nf6.
const RECORD: &[u8] =
    b"\x00\x00\x0c\xcf\x0b\x01\x0b\x0e\x0c\x0d\xbf\xbf\x0d\x61\x0e\x0e\xcf\x0fStart\x00Best}\x00";

const ASIDE: &[u8] = b"rnbqkb1r/pppppppp/5n2/8/3P4/8/PPP1PPPP/RNBQKBNR";

// The entry that a search for that board leaves of the game, and the bytes that it asked.
fn asked(alloc: Global, vars: bool) -> Result<(Option<u32>, u64), Fail> {
    let (games, mut files) = one_game(alloc, RECORD, Vec::new(alloc))?;
    let query = PosQuery {
        mode: Mode::Exact,
        board: read_board(ASIDE)?,
        side: Colour::White,
        vars,
    };
    let mut filter = Filter::new(alloc, 1)?;
    let mut buf = vec![in alloc; 0u8; 131_072]?;
    search(
        &games,
        &query,
        Op::Ignore,
        None,
        &mut filter,
        &mut files,
        buf.as_mut_slice(),
    )?;
    Ok((filter.get(0), files.asked()))
}

#[test]
fn a_game_is_read_where_a_variation_may_match(rt: HostRuntime) -> Result<(), Fail> {
    assert!(rt; asked(rt.alloc(), false)? == (None, 0));
    assert!(rt; asked(rt.alloc(), true)? == (Some(2), 30));
    Ok(())
}
