//! Packed moves of whole games and of single positions. The bytes come from outside: they were written down by hand.
use cell_core::{Board, Colour, Kind, Man, Move, Square};
use chess_laws::Position;
use move_codec::{MoveFault, Numbered};
use std::process::Abort;

/// Plays packed moves one after another, and looks that each is encoded as it stood; or the first fault.
fn play_all(rt: &impl Abort, numbered: &mut Numbered, bytes: &[u8]) -> Result<(), MoveFault> {
    let mut at = 0;
    while at < bytes.len() {
        let (_, rest) = bytes.split_at(at);
        let (m, used) = numbered.decode_move(rest)?;
        let (own, _) = rest.split_at(used as usize);
        let packed = numbered.encode_move(Move {
            from: m.from,
            to: m.to,
            promo: m.promo,
        });
        assert!(rt; packed.as_slice() == own);
        at += used as usize;
        numbered.play(m);
    }
    Ok(())
}

/// The fault of bytes after a game from the standard start.
fn fault_after(rt: &impl Abort, game: &[u8], bytes: &[u8]) -> Option<MoveFault> {
    let mut numbered = Numbered::standard();
    if play_all(rt, &mut numbered, game).is_err() {
        return None;
    }
    numbered.decode_move(bytes).err()
}

fn man(colour: Colour, kind: Kind) -> Option<Man> {
    Some(Man { colour, kind })
}

#[test]
fn plays_whole_games(rt: HostRuntime) {
    // e4 Nf6 e5 d5 exd6 h6: the pawn of h7 has the number 11 of the one that was captured en passant
    let mut numbered = Numbered::standard();
    assert!(rt; play_all(&rt, &mut numbered, b"\xcf\x61\xc1\xbf\xc0\xb1") == Ok(()));
    assert!(rt; numbered.position().board().at(Square::at(43)) == man(Colour::White, Kind::Pawn));
    assert!(rt; numbered.position().board().at(Square::at(35)) == None);
    assert!(rt; numbered.numbers().of(Colour::Black).get(11) == Some(Square::at(47)));
    assert!(rt; numbered.numbers().of(Colour::Black).get(15) == None);
    // e4, a null move, d4
    let mut numbered = Numbered::standard();
    assert!(rt; play_all(&rt, &mut numbered, b"\xcf\x00\xbf") == Ok(()));
    // Reti against Tartakower, 1910: castling on the queen's side and a queen's diagonal move among them
    let mut numbered = Numbered::standard();
    let game =
        b"\xcf\xa1\xbf\xbf\x28\xb0\x26\x61\x4a\xcf\xb2\x43\x60\x33\x44\x09\x61\x4f\x04\x36\x01\x3b";
    assert!(rt; play_all(&rt, &mut numbered, game) == Ok(()));
    assert!(rt; numbered.position().board().at(Square::at(59)) == man(Colour::White, Kind::Bishop));
}

#[test]
fn refuses_with_the_first_fault(rt: HostRuntime) {
    let start: &[u8] = b"";
    let short: [&[u8]; 2] = [b"", b"\x43"];
    for bytes in short {
        assert!(rt; fault_after(&rt, start, bytes) == Some(MoveFault::Short));
    }
    // a king's value 11, a queen on its own rank, second bytes below 64 and for d1 and d4, a rook's and a bishop's own
    // square, a bishop and a knight below the board, a knight's value 9
    let value: [&[u8]; 10] = [
        b"\x0b",
        b"\x48",
        b"\x43\x3f",
        b"\x43\x43",
        b"\x43\x5b",
        b"\x10",
        b"\x32",
        b"\x3f",
        b"\x21",
        b"\x29",
    ];
    for bytes in value {
        assert!(rt; fault_after(&rt, start, bytes) == Some(MoveFault::Value));
    }
    // castling, a rook and a bishop through pawns, a pawn round the edge, a promotion on the second rank
    let illegal: [&[u8]; 5] = [b"\x0a", b"\x19", b"\x37", b"\x80", b"\x83"];
    for bytes in illegal {
        assert!(rt; fault_after(&rt, start, bytes) == Some(MoveFault::Illegal));
    }
    // after e4 d5 exd5 Black has 15 men
    assert!(rt; fault_after(&rt, b"\xcf\xbf\xc0", b"\xf1") == Some(MoveFault::NoMan));
}

#[test]
fn numbers_a_start_by_its_text(rt: HostRuntime) {
    // 7k/P7/8/8/8/8/8/KQQQ4 w: the king takes 0 from the pawn, which promotes with the number 1
    let mut board = Board::empty();
    board.set(Square::at(63), man(Colour::Black, Kind::King));
    board.set(Square::at(48), man(Colour::White, Kind::Pawn));
    board.set(Square::at(0), man(Colour::White, Kind::King));
    board.set(Square::at(1), man(Colour::White, Kind::Queen));
    board.set(Square::at(2), man(Colour::White, Kind::Queen));
    board.set(Square::at(3), man(Colour::White, Kind::Queen));
    let position = Position::try_new(board, Colour::White, 0, None);
    assert!(rt; position.is_ok());
    if let Ok(position) = position {
        let mut numbered = Numbered::from_start(position);
        assert!(rt; play_all(&rt, &mut numbered, b"\x14") == Ok(()));
        assert!(rt;
            numbered.position().board().at(Square::at(56)) == man(Colour::White, Kind::Queen)
        );
    }
}
