//! The piece placement, the first field of a FEN.
ghost use Rattle.std.specs.Prelude.{◌≡◌, IfOk, IfErr, ok_or};
ghost use Rattle.cell_core.specs.Board.{Men};
ghost use Rattle.chess_text.specs.Placement.{PlacementText};
ghost use Rattle.chess_text.specs.Filling.{board_named};

use super::fault::FenFault;
use super::letters::man_of;
use cell_core::{Board, Square};

/// Reads a piece placement, the first field of a FEN (PGN standard, 16.1.3.1). It has eight ranks from the eighth down
/// with `/` between them, each of exactly eight squares from file a on. Any other text is `Field(1)`.
pub fn read_board(text: &[u8]) -> Result<Board, FenFault>
    ensures found { IfOk result (λ board. PlacementText text.now board) }
    ensures only { (board : Men) → PlacementText text.now board → result ≡ Ok board }
    ensures refused { IfErr result (λ fault. fault ≡ FenFault.Field 1) }
    ensures exact { result ≡ ok_or (board_named text.now) (FenFault.Field 1) }
{
    board_of(text).ok_or(FenFault::Field(1))
}

// The board that the text fills from the eighth rank down, or `None` if it is no placement.
#[tactic(auto, unfolding(crate::specs::Filling::board_named, crate::specs::Filling::after, crate::specs::Filling::after_man, crate::specs::Filling::after_slash, crate::specs::Filling::after_empty))]
pub fn board_of(text: &[u8]) -> Option<Board>
    ensures exact { result ≡ board_named text.now }
{
    let mut board = Board::empty();
    let mut rank = 7u8;
    let mut file = 0u8;
    for byte in text {
        if *byte == b'/' {
            if file != 8 || rank == 0 {
                return None;
            }
            rank -= 1;
            file = 0;
        } else if let Some(man) = man_of(*byte) {
            if file >= 8 {
                return None;
            }
            board.set(Square::at(8 * rank + file), Some(man));
            file += 1;
        } else {
            if !matches!(*byte, b'1'..=b'8') || *byte - b'0' > 8 - file {
                return None;
            }
            file += *byte - b'0';
        }
    }
    if rank == 0 && file == 8 {
        Some(board)
    } else {
        None
    }
}
