//! The hits on the initial position as games come, are replaced, go and are numbered anew.
ghost use Rattle.std.specs.Prelude.{◌≡◌, ◌+◌, ◌<◌, ◌≤◌, [], IfOk, OnOk, length};
ghost use Rattle.game_tree.specs.Legal.{IsLegalGame};

use base_files::MemFiles;
use cell_core::{Move, pack};
use chess_laws::Position;
use game_codec::decode_game;
use game_filter::Renumbering;
use game_tree::Game;
use pos_index::{Hit, PosIndex};
use sig_index::MemGames;
use std::alloc::Global;
use std::process::Abort;
use std::test::Fail;

// 1. e4 e5.
const KING_PAWNS: &[u8] = b"\x00\x00\xcf\xcf\x0f";

// 1. d4.
const QUEEN_PAWN: &[u8] = b"\x00\x00\xbf\x0f";

// 1. Nf3 Nf6 2. Ng1 Ng8 3. Nc3: the start comes again.
const KNIGHTS: &[u8] = b"\x00\x00\x67\x61\x62\x68\x28\x0f";

// No moves, and no castling rights at the start.
const OWN_START: &[u8] = b"\x00\x01rnbqkbnr/pppppppp/8/8/8/8/PPPPPPPP/RNBQKBNR w - - 0 1\x00\x0f";

// A hit: the game, the ply, and the squares of the move after it.
type Row = (u32, u8, Option<(u8, u8)>);

const ADDED: [Row; 4] = [
    (0, 0, Some((12, 28))),
    (1, 0, Some((6, 21))),
    (1, 4, Some((1, 18))),
    (2, 0, None),
];

const REPLACED: [Row; 4] = [
    (0, 0, Some((11, 27))),
    (1, 0, Some((6, 21))),
    (1, 4, Some((1, 18))),
    (2, 0, None),
];

const REMOVED: [Row; 3] = [(1, 0, Some((6, 21))), (1, 4, Some((1, 18))), (2, 0, None)];

const RENUMBERED: [Row; 3] = [(0, 0, Some((6, 21))), (0, 4, Some((1, 18))), (1, 0, None)];

// The game of a record.
fn game(alloc: Global, record: &[u8]) -> Result<Game, Fail>
    ensures legal { IfOk result (λ game. IsLegalGame game) }
{
    let game = decode_game(alloc, record.split_at(record.len().min(100)).0)?.game;
    Ok(game)
}

// An index without games.
fn no_games(alloc: Global, depth: u8) -> Result<PosIndex, Fail>
    requires depth { depth ≤ 40 }
    ensures games { IfOk result (λ index. index.rows ≡ []) }
{
    let mut files = MemFiles::new(
        Vec::new(alloc),
        Vec::new(alloc),
        Vec::new(alloc),
        Vec::new(alloc),
    );
    let mut buf = vec![in alloc; 0u8; 131_072]?;
    let games = MemGames::new(alloc);
    Ok(PosIndex::build(alloc, &games, depth, &mut files, buf.as_mut_slice())?)
}

// One game more, with the number `i`.
fn add(
    rt: &impl Abort,
    alloc: Global,
    index: &mut PosIndex,
    i: u32,
    record: &[u8],
) -> Result<(), Fail>
    requires last { i ≡ length index.old.rows }
    requires few { i < 100 }
    ensures games { OnOk result (length index.new.rows ≡ i + 1) }
{
    assert!(rt; index.room(i + 1));
    index.add(alloc, i, &game(alloc, record)?)?;
    Ok(())
}

// The index of three games.
fn added(rt: &impl Abort, alloc: Global) -> Result<PosIndex, Fail>
    ensures games { IfOk result (λ index. length index.rows ≡ 3) }
{
    let mut index = no_games(alloc, 40)?;
    add(rt, alloc, &mut index, 0, KING_PAWNS)?;
    add(rt, alloc, &mut index, 1, KNIGHTS)?;
    add(rt, alloc, &mut index, 2, OWN_START)?;
    Ok(index)
}

// Puts a game in the place of the first.
fn replace(alloc: Global, index: &mut PosIndex, record: &[u8]) -> Result<(), Fail>
    requires games { length index.old.rows ≡ 3 }
    ensures games { OnOk result (length index.new.rows ≡ 3) }
{
    index.replace(alloc, 0, &game(alloc, record)?)?;
    Ok(())
}

// Takes the first of the games out.
fn renumber(alloc: Global, index: &mut PosIndex) -> Result<(), Fail>
    requires games { length index.old.rows ≡ 3 }
{
    let mut renumbering = Renumbering::new(alloc);
    renumbering.remove()?;
    renumbering.keep()?;
    renumbering.keep()?;
    index.renumber(&renumbering);
    Ok(())
}

fn squares(next: &Option<Move>) -> Option<(u8, u8)> {
    match next {
        Some(m) => Some((m.from.index(), m.to.index())),
        None => None,
    }
}

fn same(hits: &[Hit], wanted: &[Row]) -> bool {
    hits.len() == wanted.len()
        && hits.iter().zip(wanted).all(|(hit, other)| (hit.game, hit.ply, squares(&hit.next))
            == *other)
}

// Whether these are the hits on the initial position.
fn has(index: &PosIndex, wanted: &[Row]) -> bool {
    let start = Position::start();
    same(index.find(&pack(start.board(), start.side())), wanted)
}

#[test]
fn games_that_come_change_and_go(rt: HostRuntime) -> Result<(), Fail> {
    let mut index = added(&rt, rt.alloc())?;
    assert!(rt; index.entries() == 10);
    assert!(rt; has(&index, &ADDED));
    replace(rt.alloc(), &mut index, QUEEN_PAWN)?;
    assert!(rt; has(&index, &REPLACED));
    index.remove(0);
    assert!(rt; has(&index, &REMOVED));
    renumber(rt.alloc(), &mut index)?;
    assert!(rt; has(&index, &RENUMBERED));
    Ok(())
}
