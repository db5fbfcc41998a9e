//! Bytes that are no record, as walks and searches for a position meet them.
use super::one_game::one_game;
use base_files::Swap;
use cell_core::Colour;
use chess_text::read_board;
use game_codec::{AllWalk, OuterLines, RecordFault, RecordWhat, Walk};
use move_codec::MoveFault;
use pos_search::{Mode, PosQuery, first_match, hit};
use sig_index::FetchError;
use std::alloc::Global;
use std::test::Fail;

const START: &[u8] = b"rnbqkbnr/pppppppp/8/8/8/8/PPPPPPPP/RNBQKBNR";

// After 1. e4.
const KINGS_PAWN: &[u8] = b"rnbqkbnr/pppppppp/8/8/4P3/8/PPPP1PPP/RNBQKBNR";

// 1. e4 e5.
const RECORD: &[u8] = b"\x00\x00\xcf\xcf\x0f";

/// Bytes, and the place and the name of what a walk meets there.
type Broken = (&'static [u8], u32, RecordWhat);

static BROKEN: [Broken; 6] = [
    // The end of a variation in the main line, and the end of the game in a variation.
    (b"\x00\x00\xcf\x0e\x0f", 3, RecordWhat::Mark),
    (b"\x00\x00\xcf\x0d\xbf\x0f\x0f", 5, RecordWhat::Mark),
    // No number of a NAG, no end of a variation, no end of the game.
    (b"\x00\x00\xcf\x0b", 4, RecordWhat::Short),
    (b"\x00\x00\xcf\x0d\xbf", 5, RecordWhat::Short),
    (b"\x00\x00\xcf", 3, RecordWhat::Short),
    // A king's step from the board.
    (b"\x00\x00\x01\x0f", 2, RecordWhat::Move(MoveFault::Value)),
];

// The rows, of which the proofs of the tests have to know nothing.
fn broken() -> &'static [Broken] {
    &BROKEN
}

// What a walk along the main line of these bytes meets.
fn met(bytes: &'static [u8]) -> Result<Option<RecordFault>, Fail> {
    let mut walk = Walk::new(bytes.split_at(bytes.len().min(100)).0)?;
    for _ in 0..100u32 {
        match walk.step() {
            Ok(Some(_)) => {}
            Ok(None) => return Ok(None),
            Err(fault) => return Ok(Some(fault)),
        }
    }
    Ok(None)
}

// What a walk along all lines meets.
fn met_in_lines(bytes: &'static [u8]) -> Result<Option<RecordFault>, Fail> {
    let mut outer = OuterLines::new();
    let mut walk = AllWalk::new(bytes.split_at(bytes.len().min(100)).0, &mut outer)?;
    for _ in 0..100u32 {
        match walk.step() {
            Ok(Some(_)) => {}
            Ok(None) => return Ok(None),
            Err(fault) => return Ok(Some(fault)),
        }
    }
    Ok(None)
}

fn fault(place: u32, what: RecordWhat) -> Option<RecordFault> {
    Some(RecordFault { place, what })
}

#[test]
fn walks_tell_what_they_meet_and_where(rt: HostRuntime) -> Result<(), Fail> {
    for (bytes, place, what) in broken() {
        assert!(rt; met(bytes)? == fault(*place, *what));
        assert!(rt; met_in_lines(bytes)? == fault(*place, *what));
    }
    // A king's step in a variation.
    let aside = b"\x00\x00\xcf\x0d\x01\x0e\xcf\x0f";
    assert!(rt; met(aside)?.is_none());
    assert!(rt; met_in_lines(aside)? == fault(4, RecordWhat::Move(MoveFault::Value)));
    Ok(())
}

fn query(board: &'static [u8], side: Colour, vars: bool) -> Result<PosQuery, Fail> {
    Ok(PosQuery {
        mode: Mode::Exact,
        board: read_board(board)?,
        side,
        vars,
    })
}

#[test]
fn a_search_along_bytes_that_are_no_record_has_their_fault(rt: HostRuntime) -> Result<(), Fail> {
    for vars in [false, true] {
        let start = query(START, Colour::White, vars)?;
        let later = query(KINGS_PAWN, Colour::Black, vars)?;
        assert!(rt; first_match(b"\xce", &start).is_err());
        assert!(rt; first_match(b"\x00\x00\xce", &start).is_err());
        assert!(rt; first_match(b"\x00\x00\xce", &later).is_err());
    }
    Ok(())
}

// Whether a search for the initial position finds that the game's first move has become none.
fn has_changed(alloc: Global) -> Result<bool, Fail> {
    let swap = Swap {
        before: 0,
        place: 2,
        byte: 0xce,
    };
    let (games, mut files) = one_game(alloc, RECORD, Vec::from_slice(alloc, &[swap])?)?;
    let mut buf = vec![in alloc; 0u8; 131_072]?;
    let start = query(START, Colour::White, false)?;
    match hit(&games, 0, &start, None, &mut files, buf.as_mut_slice()) {
        Err(FetchError::Changed { game, found, .. }) => Ok(game == 0 && found.is_none()),
        _ => Ok(false),
    }
}

#[test]
fn a_game_that_has_changed_is_named(rt: HostRuntime) -> Result<(), Fail> {
    assert!(rt; has_changed(rt.alloc())?);
    Ok(())
}
