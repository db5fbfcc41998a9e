//! Counts the lines of legal moves from a position. Each line of standard input is a depth, one digit, and a FEN; the
//! answer is a line with the number of different lines of so many half-moves, or with what is wrong.
#![tactic(auto)]

ghost use Rattle.std.specs.Prelude.{IfSome};
ghost use Rattle.perft.specs.Count.{IsCount};

use arrayvec::ArrayVec;
use cell_core::Move;
use chess_laws::Position;
use chess_text::read_fen;
use std::io;

fn main(rt: HostRuntime) -> io::Result<()> {
    for line in rt.lines(rt.alloc()) {
        let line = line?;
        match asked(line.as_bytes()) {
            Some((depth, position)) => match nodes(&position, depth) {
                Some(count) => println!(rt; "{count}")?,
                None => println!(rt; "too many moves")?,
            },
            None => println!(rt; "no depth and position")?,
        }
    }
    Ok(())
}

/// The depth and the position of a line, if it begins with a digit and has a FEN behind it.
fn asked(line: &[u8]) -> Option<(u8, Position)> {
    let (digit, fen) = line.split_first()?;
    if !digit.is_ascii_digit() {
        return None;
    }
    let depth = digit - b'0';
    let position = read_fen(fen).ok()?;
    Some((depth, position))
}

/// How many lines of `depth` half-moves there are, the one of no half-move among them, or `None` if a position on the
/// way has more legal moves than the list holds, or the lines are more than the number holds. The last half-move is
/// counted, not played.
fn nodes(position: &Position, depth: u8) -> Option<u64>
    ensures count { IfSome result (IsCount depth position.now) }
{
    if depth == 0 {
        return Some(1);
    }
    let mut moves: ArrayVec<Move, 256> = ArrayVec::new();
    if !position.legal_moves(&mut moves) {
        return None;
    }
    if depth == 1 {
        return Some(moves.len() as u64);
    }
    let mut all = 0u64;
    for m in moves.as_slice() {
        let mut next = *position;
        next.play(*m);
        all = all.checked_add(nodes(&next, depth - 1)?)?;
    }
    Some(all)
}
