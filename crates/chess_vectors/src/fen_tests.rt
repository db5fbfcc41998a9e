//! Outside vectors of FEN, and texts that are none.
use cell_core::{Colour, Kind, Man, Square};
use chess_text::{FenFault, read_board, read_fen, write_fen};
use std::test::Fail;

const START: &str = "rnbqkbnr/pppppppp/8/8/8/8/PPPPPPPP/RNBQKBNR";

// The placement field of well-known perft positions, and men that stand on them: a1 = 0, h8 = 63.
#[test]
fn placements_of_known_positions(rt: HostRuntime) -> Result<(), Fail> {
    let (white, black) = (Colour::White, Colour::Black);
    for (text, square, colour, kind) in [
        (START, 4, white, Kind::King),
        (START, 59, black, Kind::Queen),
        (
            "r3k2r/p1ppqpb1/bn2pnp1/3PN3/1p2P3/2N2Q1p/PPPBBPPP/R3K2R",
            21,
            white,
            Kind::Queen,
        ),
        (
            "r3k2r/p1ppqpb1/bn2pnp1/3PN3/1p2P3/2N2Q1p/PPPBBPPP/R3K2R",
            23,
            black,
            Kind::Pawn,
        ),
        ("8/2p5/3p4/KP5r/1R3p1k/8/4P1P1/8", 25, white, Kind::Rook),
        ("8/2p5/3p4/KP5r/1R3p1k/8/4P1P1/8", 31, black, Kind::King),
        (
            "r3k2r/Pppp1ppp/1b3nbN/nP6/BBP1P3/q4N2/Pp1P2PP/R2Q1RK1",
            47,
            white,
            Kind::Knight,
        ),
        (
            "rnbq1k1r/pp1Pbppp/2p5/8/2B5/8/PPP1NnPP/RNBQK2R",
            26,
            white,
            Kind::Bishop,
        ),
        ("7k/P7/8/8/8/8/8/1111K111", 48, white, Kind::Pawn),
    ] {
        let board = read_board(text.as_bytes()).ok().ok_or(text)?;
        assert!(rt; board.at(Square::at(square)) == Some(Man { colour, kind }));
    }
    Ok(())
}

// Each is one step from a placement.
#[test]
fn texts_that_are_no_placement(rt: HostRuntime) {
    for text in [
        "",
        "8/8/8/8/8/8/8",
        "8/8/8/8/8/8/8/8/",
        "8/8/8/8/8/8/8/8/8",
        "8/8/8/8/8/8/8/7",
        "8/8/8/8/8/8/8/45",
        "8/8/8/8/8/8/8/9",
        "8/8/8/8/8/8/8/08",
        "8/8/8/8/8/8/8/7x",
        "8/8/8/8/8/8/8/8 ",
        "8/8/8/8/8/8/8/PPPPPPPPP",
    ] {
        assert!(rt; read_board(text.as_bytes()).err() == Some(FenFault::Field(1)));
    }
}

// Well-known perft positions, the examples of the PGN standard (16.1.4), and texts that are written otherwise than read.
#[test]
fn positions_read_and_written(rt: HostRuntime) -> Result<(), Fail> {
    for (text, written) in [
        (
            "rnbqkbnr/pppppppp/8/8/8/8/PPPPPPPP/RNBQKBNR w KQkq - 0 1",
            "",
        ),
        (
            "r3k2r/p1ppqpb1/bn2pnp1/3PN3/1p2P3/2N2Q1p/PPPBBPPP/R3K2R w KQkq - 0 1",
            "",
        ),
        ("8/2p5/3p4/KP5r/1R3p1k/8/4P1P1/8 w - - 0 1", ""),
        (
            "r3k2r/Pppp1ppp/1b3nbN/nP6/BBP1P3/q4N2/Pp1P2PP/R2Q1RK1 w kq - 0 1",
            "",
        ),
        (
            "rnbq1k1r/pp1Pbppp/2p5/8/2B5/8/PPP1NnPP/RNBQK2R w KQ - 0 1",
            "",
        ),
        (
            "rnbqkbnr/pppppppp/8/8/4P3/8/PPPP1PPP/RNBQKBNR b KQkq e3 0 1",
            "",
        ),
        (
            "rnbqkbnr/pp1ppppp/8/2p5/4P3/8/PPPP1PPP/RNBQKBNR w KQkq c6 0 2",
            "rnbqkbnr/pp1ppppp/8/2p5/4P3/8/PPPP1PPP/RNBQKBNR w KQkq c6 0 1",
        ),
        (
            "  r3k2r/8/8/8/8/8/8/R3K2R  w   qkQK ",
            "r3k2r/8/8/8/8/8/8/R3K2R w KQkq - 0 1",
        ),
        ("4k3/8/8/8/8/8/8/2112K1 b", "4k3/8/8/8/8/8/8/6K1 b - - 0 1"),
        (
            "4k3/8/8/8/8/8/8/4K2R w KQkq - 12 34",
            "4k3/8/8/8/8/8/8/4K2R w K - 0 1",
        ),
    ] {
        let position = read_fen(text.as_bytes()).ok().ok_or(text)?;
        let wanted = if written.is_empty() { text } else { written };
        assert!(rt; write_fen(rt.alloc(), &position)?.as_bytes() == wanted.as_bytes());
    }
    Ok(())
}

// Each fault, one step from a text that reads.
#[test]
fn texts_that_are_no_position(rt: HostRuntime) {
    for (text, fault) in [
        ("", Some(FenFault::Field(1))),
        ("4k3/8/8/8/8/8/8/4K4 w", Some(FenFault::Field(1))),
        ("4k3/8/8/8/8/8/8/4K3", Some(FenFault::Field(2))),
        ("4k3/8/8/8/8/8/8/4K3 W", Some(FenFault::Field(2))),
        ("4k3/8/8/8/8/8/8/4K3 w K", None),
        ("4k3/8/8/8/8/8/8/4K3 w KK", Some(FenFault::Field(3))),
        ("4k3/8/8/8/8/8/8/4K3 w -K", Some(FenFault::Field(3))),
        ("4k3/8/8/8/8/8/8/4K3 b - e3", None),
        ("4k3/8/8/8/8/8/8/4K3 w - e3", Some(FenFault::Field(4))),
        ("4k3/8/8/8/8/8/8/4K3 w - i6", Some(FenFault::Field(4))),
        ("4k3/8/8/8/8/8/8/4K3 w - - 07", None),
        ("4k3/8/8/8/8/8/8/4K3 w - - -1", Some(FenFault::Field(5))),
        ("4k3/8/8/8/8/8/8/4K3 w - - 0 1.", Some(FenFault::Field(6))),
        ("4k3/8/8/8/8/8/8/4K3 w - - 0 1 ", None),
        ("4k3/8/8/8/8/8/8/4K3 w - - 0 1 -", Some(FenFault::Field(7))),
        ("4k3/8/8/8/8/8/8/8 w", Some(FenFault::Kings)),
        ("P3k3/8/8/8/8/8/8/4K2K w", Some(FenFault::Kings)),
        ("4k3/8/8/8/8/8/8/P3K3 w", Some(FenFault::Pawns)),
        (
            "4k3/8/8/8/8/7P/PPPPPPPP/RNBQKBNR w",
            Some(FenFault::TooMany),
        ),
        ("4k3/8/8/8/8/8/PPPPPPPP/RNBQKBNR w", None),
        ("4k3/8/8/8/8/8/8/4RK2 w", Some(FenFault::InCheck)),
        ("4k3/8/8/8/8/8/8/4RK2 b", None),
    ] {
        assert!(rt; read_fen(text.as_bytes()).err() == fault);
    }
}
