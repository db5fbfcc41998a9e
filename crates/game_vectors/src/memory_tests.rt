//! The move after a board in a game that is in memory, and the moves of its main line.
use cell_core::Colour;
use chess_text::read_board;
use game_codec::decode_game;
use game_tree::main_line;
use pos_search::next_in;
use std::alloc::Global;
use std::test::Fail;

// 1. e4 (1. d4 d5) 1... e5.
const SHORT: &[u8] = b"\x00\x00\xcf\x0d\xbf\xbf\x0e\xcf\x0f";

// 1. Nf3 Nf6 2. Ng1 Ng8 3. e4.
const TWICE: &[u8] = b"\x00\x00\x67\x61\x62\x68\xcf\x0f";

const START: &[u8] = b"rnbqkbnr/pppppppp/8/8/8/8/PPPPPPPP/RNBQKBNR";

// After 1. e4 e5, and after 1. d4.
const LAST: &[u8] = b"rnbqkbnr/pppp1ppp/8/4p3/4P3/8/PPPP1PPP/RNBQKBNR";

const ASIDE: &[u8] = b"rnbqkbnr/pppppppp/8/8/3P4/8/PPP1PPPP/RNBQKBNR";

// The squares from which and to which the move goes that a game has after a board.
fn squares_after(
    alloc: Global,
    record: &'static [u8],
    board: &'static [u8],
    side: Colour,
) -> Result<Option<Option<(u8, u8)>>, Fail> {
    let game = decode_game(alloc, record.split_at(record.len().min(100)).0)?.game;
    match next_in(&read_board(board)?, side, &game) {
        Some(Some(m)) => Ok(Some(Some((m.from.index(), m.to.index())))),
        Some(None) => Ok(Some(None)),
        None => Ok(None),
    }
}

#[test]
fn the_first_place_on_the_main_line_counts(rt: HostRuntime) -> Result<(), Fail> {
    let alloc = rt.alloc();
    assert!(rt; squares_after(alloc, SHORT, START, Colour::White)? == Some(Some((12, 28))));
    assert!(rt; squares_after(alloc, SHORT, LAST, Colour::White)? == Some(None));
    assert!(rt; squares_after(alloc, SHORT, ASIDE, Colour::Black)?.is_none());
    assert!(rt; squares_after(alloc, TWICE, START, Colour::White)? == Some(Some((6, 21))));
    assert!(rt; squares_after(alloc, TWICE, START, Colour::Black)?.is_none());
    Ok(())
}

#[test]
fn the_main_line_leaves_variations_out(rt: HostRuntime) -> Result<(), Fail> {
    let game = decode_game(rt.alloc(), SHORT.split_at(SHORT.len().min(100)).0)?.game;
    let moves = main_line(rt.alloc(), &game)?;
    assert!(rt; moves.len() == 2);
    assert!(rt; moves[0].from.index() == 12 && moves[0].to.index() == 28);
    assert!(rt; moves[1].from.index() == 52 && moves[1].to.index() == 36);
    Ok(())
}
