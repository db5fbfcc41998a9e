//! How a game begins.
ghost use Rattle.std.specs.Prelude.{◌≡◌, ◌<◌, ◌^◌, List, length, IfOk};
ghost use Rattle.std.specs.Option.{MatchOption};
ghost use Rattle.game_codec.specs.Record.{IsRecord, IsSomeRecord};
ghost use Rattle.game_tree.specs.Game.{GameTree};
ghost use Rattle.game_tree.specs.declared.head.Tag.{Tag};
ghost use Rattle.twin_games.specs.Keys.{IsOpening, start_of};
ghost use Rattle.twin_games.specs.Twins.{first_moves};

use cell_core::{Move, PackedBoard, Square, pack};
use chess_laws::Position;
use game_codec::Walk;
use std::alloc::{AllocError, Global};

/// The position at which a game begins.
#[derive(Clone, Copy, Debug, PartialEq, Eq, Hash)]
pub(crate) struct Start {
    board: PackedBoard,
    rights: u8,
    en_passant: Option<Square>,
}

/// The start of a game, and the first moves of its main line.
#[derive(Debug, Drop, PartialEq, Eq, Hash)]
pub(crate) struct Opening {
    start: Start,
    moves: Vec<Move>,
}

/// The opening of a record of fewer than 2^32 bytes, with at most `depth` moves, or `None` if the bytes are no record.
pub(crate) fn opening_of(
    alloc: Global,
    bytes: &[u8],
    depth: u32,
) -> Result<Option<Opening>, AllocError>
    requires { length bytes.now < 2 ^ 32 }
    ensures { IfOk result (λ read. MatchOption read (IsSomeRecord bytes.now → ⊥)
        (λ opening. (tags : List Tag) (game : GameTree) → IsRecord bytes.now tags game → IsOpening depth opening game)) }
{
    let mut walk = match Walk::new(bytes) {
        Ok(walk) => walk,
        Err(_) => return Ok(None),
    };
    let start = start_of(walk.position());
    match moves_of(alloc, &mut walk, depth)? {
        Some(moves) => Ok(Some(Opening { start, moves })),
        None => Ok(None),
    }
}

// A position as it is compared.
fn start_of(p: &Position) -> Start
    ensures { result ≡ start_of p.now }
{
    Start {
        board: pack(p.board(), p.side()),
        rights: p.rights(),
        en_passant: p.en_passant(),
    }
}

// The first moves of a walk that has made no step, at most `depth`, or `None` if its bytes are no record.
fn moves_of(alloc: Global, walk: &mut Walk<'_>, depth: u32) -> Result<Option<Vec<Move>>, AllocError>
    requires { walk.old.ply ≡ 0 }
    ensures { IfOk result (λ read. MatchOption read (IsSomeRecord walk.old.bytes → ⊥)
        (λ moves. (tags : List Tag) (game : GameTree) → IsRecord walk.old.bytes tags game → moves.items ≡ first_moves depth game)) }
{
    let mut moves = Vec::new(alloc);
    'steps: while walk.ply() < depth {
        match walk.step() {
            Ok(Some(m)) => moves.push(m)?,
            Ok(None) => return Ok(Some(moves)),
            Err(_) => return Ok(None),
        }
    }
    Ok(Some(moves))
}
