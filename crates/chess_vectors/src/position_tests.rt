//! Setups that are positions, and the first rule that others break.

use cell_core::{Board, Colour, Square};
use chess_laws::{PlaceFault, Position};
use chess_text::read_board;

/// A setup, its en passant square empty if it has none, and the fault that it has.
#[derive(Clone, Copy)]
struct Placed {
    board: &'static str,
    side: Colour,
    en_passant: &'static str,
    fault: Option<PlaceFault>,
}

fn square(text: &[u8]) -> Option<Square> {
    match text {
        [file, rank] => {
            let file = file.saturating_sub(b'a').min(7);
            let rank = rank.saturating_sub(b'1').min(7);
            Square::new(8 * rank + file)
        }
        _ => None,
    }
}

fn board(text: &str) -> Board {
    read_board(text.as_bytes()).unwrap_or(Board::empty())
}

/// The fault of a setup, or none.
fn fault(case: &Placed) -> Option<PlaceFault> {
    let square = square(case.en_passant.as_bytes());
    Position::try_new(board(case.board), case.side, 0, square).err()
}

fn to_move(side: Colour, board: &'static str, fault: Option<PlaceFault>) -> Placed {
    Placed {
        board,
        side,
        en_passant: "",
        fault,
    }
}

fn passing(side: Colour, en_passant: &'static str, fault: Option<PlaceFault>) -> Placed {
    Placed {
        board: "4k3/8/8/8/8/8/8/4K3",
        side,
        en_passant,
        fault,
    }
}

#[test]
fn a_setup_has_its_first_fault(rt: HostRuntime) {
    use Colour::{Black, White};
    let cases = [
        to_move(White, "4k3/8/8/8/8/8/8/4K3", None),
        to_move(White, "8/8/8/8/8/8/8/4K3", Some(PlaceFault::Kings)),
        to_move(White, "4k3/8/8/8/8/8/8/K3K3", Some(PlaceFault::Kings)),
        to_move(White, "4k2k/8/8/8/8/8/8/P3K3", Some(PlaceFault::Kings)),
        to_move(White, "4k3/8/8/8/8/8/P7/4K3", None),
        to_move(White, "4k3/8/8/8/8/8/8/P3K3", Some(PlaceFault::Pawns)),
        to_move(White, "4k2p/8/8/8/8/8/8/4K3", Some(PlaceFault::Pawns)),
        to_move(White, "4k3/8/8/8/8/8/PPPPPPPP/RNBQKBNR", None),
        to_move(
            White,
            "4k3/8/8/8/8/P7/PPPPPPPP/RNBQKBNR",
            Some(PlaceFault::TooMany),
        ),
        to_move(Black, "4k3/8/8/8/8/8/4R3/4K3", None),
        to_move(White, "4k3/8/8/8/8/8/4R3/4K3", Some(PlaceFault::InCheck)),
        to_move(White, "4k3/8/4n3/8/8/8/4R3/4K3", None),
        passing(White, "c6", None),
        passing(White, "c3", Some(PlaceFault::EnPassant)),
        passing(Black, "c3", None),
        passing(Black, "c6", Some(PlaceFault::EnPassant)),
    ];
    for case in &cases {
        assert!(rt; fault(case) == case.fault);
    }
}

/// The rights that are left of all bits, on this board with White to move.
fn rights_left(text: &str) -> Option<u8> {
    let position = Position::try_new(board(text), Colour::White, 255, None).ok()?;
    Some(position.rights())
}

#[test]
fn a_right_stands_where_king_and_rook_are_at_home(rt: HostRuntime) {
    for (text, rights) in [
        ("r3k2r/8/8/8/8/8/8/R3K2R", 15u8),
        ("r3k2r/8/8/8/8/8/8/4K2R", 13),
        ("4k2r/8/8/8/8/8/8/R3K2R", 7),
        ("r3k2r/8/8/8/8/8/8/R2K3R", 12),
        ("r4k1r/8/8/8/8/8/8/R3K2N", 2),
        ("4k3/8/8/8/8/8/8/r3K2r", 0),
    ] {
        assert!(rt; rights_left(text) == Some(rights));
    }
}

#[test]
fn the_initial_position_is_that_of_article_2(rt: HostRuntime) {
    let start = Position::start();
    let text = "rnbqkbnr/pppppppp/8/8/8/8/PPPPPPPP/RNBQKBNR";
    assert!(rt; *start.board() == board(text));
    assert!(rt; start.side() == Colour::White);
    assert!(rt; start.rights() == 15);
    assert!(rt; start.en_passant() == None);
    assert!(rt; !start.in_check());
    assert!(rt; start.counts() == [1, 2, 2, 2, 8, 1, 2, 2, 2, 8]);
    assert!(rt; start.home_set() == 0xffff);
}

#[test]
fn home_values_fall_from_a2_to_h2_and_from_a7_to_h7(rt: HostRuntime) {
    for (text, bits) in [
        ("4k3/8/8/8/8/8/P7/4K3", 0x8000u16),
        ("4k3/8/8/8/8/8/7P/4K3", 0x0100),
        ("4k3/p7/8/8/8/8/8/4K3", 0x0080),
        ("4k3/7p/8/8/8/8/8/4K3", 0x0001),
        ("4k3/P7/8/8/8/8/p7/4K3", 0),
    ] {
        let home = Position::try_new(board(text), Colour::White, 0, None)
            .ok()
            .map(|position| position.home_set());
        assert!(rt; home == Some(bits));
    }
}
