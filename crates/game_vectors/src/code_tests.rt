//! The codes of games: the numbers are `1 + 13100 * letter + 1310 * digit + 131 * digit`, the letters from 0 for A.
ghost use Rattle.std.specs.Prelude.{◌≤◌, length};

use cell_core::{Colour, pack};
use chess_laws::Position;
use eco_class::EcoTable;
use std::alloc::Global;
use std::test::Fail;

// A table, the record of a game, and the game's code.
struct Row {
    table: &'static [u8],
    record: &'static [u8],
    code: Option<u16>,
}

const CARO_KANN: &[u8] = b"B10 e4 c6\nB12 e4 c6 d4 d5\nC00 e4 e6\n";

const TRANSPOSED: &[u8] = b"D00 d4 d5 e4\nB01 e4 d5\n";

static ROWS: [Row; 11] = [
    // 1. e4 c6 2. d4 d5 3. Nc3 dxe4 .. mate, which passes B10 and B12.
    Row {
        table: CARO_KANN,
        record: b"\x00\x00\xcf\xa1\xbf\xbf\x28\xb0\x26\x61\x4a\xcf\xb2\x43\x60\x33\x44\x09\x61\x4f\x04\x36\x01\x3b\x0f",
        code: Some(14_673),
    },
    // 1. e4 d5 2. d4 passes B01 and comes to the end of D00, as 1. d4 d5 2. e4 does.
    Row {
        table: TRANSPOSED,
        record: b"\x00\x00\xcf\xbf\xbf\x0f",
        code: Some(39_301),
    },
    Row {
        table: TRANSPOSED,
        record: b"\x00\x00\xbf\xbf\xcf\x0f",
        code: Some(39_301),
    },
    // 1. e4 d5 alone.
    Row {
        table: TRANSPOSED,
        record: b"\x00\x00\xcf\xbf\x0f",
        code: Some(13_232),
    },
    // 1. d4 d5 comes to the end of no line.
    Row {
        table: TRANSPOSED,
        record: b"\x00\x00\xbf\xbf\x0f",
        code: None,
    },
    // A code without moves is that of the start.
    Row {
        table: b"A00",
        record: b"\x00\x00\xbf\xbf\x0f",
        code: Some(1),
    },
    // 1. Nf3 Nf6 2. Ng1 Ng8 comes back to the start, with more moves than the table's lines have.
    Row {
        table: b"A00\nA04 Nf3",
        record: b"\x00\x00\x67\x61\x62\x68\x0f",
        code: Some(1),
    },
    // 1. Nf3 Nf6 2. Ng1: the start's board, but Black to move.
    Row {
        table: b"A00\nA04 Nf3",
        record: b"\x00\x00\x67\x61\x62\x0f",
        code: Some(525),
    },
    // A game that begins behind 1. e4, and one that begins without castling rights.
    Row {
        table: b"A00\nB00 e4",
        record: b"\x00\x01rnbqkbnr/pppppppp/8/8/4P3/8/PPPP1PPP/RNBQKBNR b KQkq - 0 1\x00\x0f",
        code: Some(13_101),
    },
    Row {
        table: b"A00\nB00 e4",
        record: b"\x00\x01rnbqkbnr/pppppppp/8/8/8/8/PPPPPPPP/RNBQKBNR w - - 0 1\x00\x0f",
        code: Some(1),
    },
    // Comments, empty lines, tabs, blanks at both ends, carriage returns, an extension.
    Row {
        table: b"#B00 e4\r\n\r\n \t\r\n \tB01a1\te4  d5 \r\n# end",
        record: b"\x00\x00\xcf\xbf\x0f",
        code: Some(13_234),
    },
];

// The rows, of which the proofs of the tests have to know nothing.
fn rows() -> &'static [Row] {
    &ROWS
}

// At most two thousand of these bytes.
fn short(bytes: &[u8]) -> &[u8]
    ensures few { length result.now ≤ 2000 }
{
    bytes.split_at(bytes.len().min(2000)).0
}

// The code of a row's game by its table, and none if the table or the record is refused.
fn code_of(alloc: Global, row: &Row) -> Option<u16> {
    match EcoTable::read(alloc, short(row.table)) {
        Ok(table) => match table.classify(short(row.record)) {
            Ok(code) => code,
            Err(_) => Some(0),
        },
        Err(_) => Some(0),
    }
}

// The first row whose game has another code.
fn misread(alloc: Global, rows: &'static [Row]) -> Option<&'static [u8]> {
    for row in rows {
        if code_of(alloc, row) != row.code {
            return Some(row.record);
        }
    }
    None
}

#[test]
fn codes_of_games(rt: HostRuntime) {
    assert!(rt; misread(rt.alloc(), rows()).is_none());
}

#[test]
fn lines_of_a_table(rt: HostRuntime) -> Result<(), Fail> {
    let table = EcoTable::read(rt.alloc(), b"A00\n\n# no code\nB00 e4\n")?;
    assert_eq!(rt; table.len(), 2);
    let start = Position::start();
    assert_eq!(rt; table.code_at(&pack(start.board(), Colour::White)), Some(1));
    assert_eq!(rt; table.code_at(&pack(start.board(), Colour::Black)), None);
    Ok(())
}

#[test]
fn bytes_that_are_no_record(rt: HostRuntime) -> Result<(), Fail> {
    let table = EcoTable::read(rt.alloc(), b"A00")?;
    assert!(rt; table.classify(b"\x00\x00\xcf").is_err());
    Ok(())
}
