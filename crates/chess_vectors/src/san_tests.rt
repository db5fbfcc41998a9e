//! Outside vectors of SAN.
use cell_core::{Kind, Move};
use chess_laws::Position;
use chess_text::{SanFault, read_fen, read_san, write_san};
use std::test::Fail;

// The numbers of the squares of what was read.
fn told(answer: Result<Move, SanFault>) -> Result<(u8, u8, Option<Kind>), SanFault> {
    let m = answer?;
    Ok((m.from.index(), m.to.index(), m.promo))
}

const START: &str = "rnbqkbnr/pppppppp/8/8/8/8/PPPPPPPP/RNBQKBNR w KQkq - 0 1";

const CASTLES: &str = "r3k2r/8/8/8/8/8/8/R3K2R w KQkq - 0 1";

const PROMOTES: &str = "3r3k/4P3/8/8/8/8/8/4K3 w - - 0 1";

const KNIGHTS: &str = "4k3/8/8/8/8/N3N3/8/N3K3 w - - 0 1";

const CHECKED: &str = "rnbqkbnr/ppppp1pp/5p2/7Q/4P3/8/PPPP1PPP/RNB1KBNR b KQkq - 1 2";

const TWO: &str = "rnbqkb1r/ppp1pppp/3p1n2/8/8/3P1N2/PPP1PPPP/RNBQKB1R w KQkq - 0 3";

const PINNED: &str = "4k3/8/8/8/1b6/2N5/8/4K1N1 w - - 0 1";

const READ: [(&str, &str, Result<(u8, u8, Option<Kind>), SanFault>); 32] = [
    (CHECKED, "--", Err(SanFault::NoMove)),
    (TWO, "Nd2", Err(SanFault::Two)),
    (PINNED, "Ne2", Ok((6, 12, None))),
    (START, "Nf3", Ok((6, 21, None))),
    (START, "Ng1-f3", Err(SanFault::Shape)),
    (START, "e4+#", Ok((12, 28, None))),
    (START, "e5", Err(SanFault::NoMove)),
    (START, "--", Ok((4, 4, None))),
    (START, "--+", Ok((4, 4, None))),
    (CASTLES, "0-0", Ok((4, 6, None))),
    (CASTLES, "0-0-0", Ok((4, 2, None))),
    (CASTLES, "O-O-O+", Ok((4, 2, None))),
    (CASTLES, "Kg1", Err(SanFault::NoMove)),
    (PROMOTES, "e8", Err(SanFault::NoMove)),
    (PROMOTES, "e8Q", Ok((52, 60, Some(Kind::Queen)))),
    (PROMOTES, "exd8=N", Ok((52, 59, Some(Kind::Knight)))),
    (KNIGHTS, "Nc2", Err(SanFault::Two)),
    (KNIGHTS, "Nec2", Ok((20, 10, None))),
    (START, "Zf3", Err(SanFault::Shape)),
    (START, "Ni3", Err(SanFault::Shape)),
    (START, "Nf9", Err(SanFault::Shape)),
    (START, "Nf3?", Err(SanFault::Shape)),
    (START, "e4=", Err(SanFault::Shape)),
    (START, "-+", Err(SanFault::Shape)),
    (CASTLES, "O-P", Err(SanFault::Shape)),
    (CASTLES, "0-O", Err(SanFault::Shape)),
    (PROMOTES, "e8=K", Err(SanFault::Shape)),
    (PROMOTES, "e8q", Err(SanFault::Shape)),
    (START, "Nf3=Q", Err(SanFault::NoMove)),
    (START, "e4Q", Err(SanFault::NoMove)),
    (START, "N:f3", Ok((6, 21, None))),
    (START, "Ng1xf3", Ok((6, 21, None))),
];

#[test]
fn texts_read(rt: HostRuntime) -> Result<(), Fail> {
    for (fen, text, wanted) in READ {
        let position = read_fen(fen.as_bytes()).ok().ok_or(fen)?;
        assert!(rt; told(read_san(&position, text.as_bytes())) == wanted);
    }
    Ok(())
}

// Positions, texts of moves as they are read, and as they are written.
const WRITTEN: [(&str, &str, &str); 17] = [
    (START, "Nf3", "Nf3"),
    (START, "--", "--"),
    ("4k3/8/8/8/8/N7/8/N3N2K w - - 0 1", "Na1c2", "Na1c2"),
    ("4k3/8/8/8/8/N3N3/8/N3K3 w - - 0 1", "Na1c2", "N1c2"),
    ("4k3/8/8/8/8/8/8/N3KN2 w - - 0 1", "Nfd2", "Nd2"),
    ("8/6k1/8/8/4Q2Q/8/8/K6Q w - - 0 1", "Qh4e1", "Qh4e1"),
    ("4k3/8/8/8/1b6/2N5/8/4K1N1 w - - 0 1", "Ne2", "Ne2"),
    ("4k3/8/8/3pP3/8/8/8/4K3 w - d6 0 1", "ed6", "exd6"),
    (CASTLES, "0-0", "O-O"),
    ("5k2/8/8/8/8/8/8/4K2R w K - 0 1", "O-O", "O-O+"),
    ("8/8/8/8/8/8/7R/R3K2k b Q - 0 1", "Kxh2", "Kxh2"),
    ("3k4/2p1p3/8/8/8/8/8/R3K3 w Q - 0 1", "O-O-O", "O-O-O+"),
    (PROMOTES, "e8Q", "e8=Q+"),
    (PROMOTES, "exd8R", "exd8=R+"),
    ("3r3k/4P1pp/8/8/8/8/8/4K3 w - - 0 1", "exd8Q", "exd8=Q#"),
    ("k7/8/1K6/8/8/8/8/7R w - - 0 1", "Rh8", "Rh8#"),
    ("5k2/2N4Q/8/8/8/8/8/4K2R w K - 0 1", "O-O", "O-O#"),
];

#[test]
fn moves_written(rt: HostRuntime) -> Result<(), Fail> {
    for (fen, text, written) in WRITTEN {
        let position = read_fen(fen.as_bytes()).ok().ok_or(fen)?;
        match read_san(&position, text.as_bytes()) {
            Ok(m) => {
                assert!(rt; write_san(&position, m).as_slice() == written.as_bytes());
            }
            Err(_) => assert!(rt; "" == written),
        }
    }
    Ok(())
}

// Whole lines of moves from the initial position.
const LINES: [&str; 5] = [
    "e4 c6 d4 d5 Nc3 dxe4 Nxe4 Nf6 Qd3 e5 dxe5 Qa5+ Bd2 Qxe5 O-O-O Nxe4 Qd8+ Kxd8 Bg5+ Kc7 Bd8#",
    "e4 Nf6 e5 d5 exd6 h6",
    "e4 -- d4",
    "e4 e5",
    "d4 Nf6",
];

#[test]
fn lines_written_as_they_are_read(rt: HostRuntime) -> Result<(), Fail> {
    for line in LINES {
        let mut position = Position::start();
        for text in line.split(' ') {
            let before = position;
            let m = read_san(&before, text.as_bytes()).ok().ok_or(text)?;
            assert!(rt; position.advance(&m));
            assert!(rt; write_san(&before, m).as_slice() == text.as_bytes());
        }
    }
    Ok(())
}
