//! Games.
ghost use Rattle.std.specs.Prelude.{◌≡◌, ◌<◌, ◌^◌, length, IfOk};
ghost use Rattle.game_tree.specs.Tree.{line_of, moves_of};
ghost use Rattle.game_tree.specs.Game.{has_own_start};
ghost use Rattle.game_tree.specs.Kept.{IsGame};
ghost use Rattle.game_tree.specs.Replay.{main_moves, plies_of};

use super::node::Node;
use cell_core::{Move, Text};
use chess_laws::Position;
use std::alloc::{AllocError, Global};
use std::marker::Model;

/// A game: the position at its start, its comment before the first move, and the moves of its main line with their
/// variations.
#[derive(Debug, Drop)]
pub struct Game {
    pub start: Position,
    pub lead: Option<Text>,
    pub line: Vec<Node>,
}

impl Model for Game {
    ghost use Rattle.game_tree.specs.Tree.{line_of};
    ghost use Rattle.game_tree.specs.Game.{GameTree, coded_game};
    ghost use Rattle.game_tree.specs.Kept.{IsGame};

    ghost Value = { GameTree };

    ghost coded = { coded_game };

    ghost view = { λ g. record { start = g.start; lead = g.lead; line = line_of g.line.items } };

    ghost invariant = { λ g. IsGame (record { start = g.start; lead = g.lead; line = line_of g.line.items }) };
}

impl Game {
    /// Whether the game has a start of its own, other than the initial position.
    pub fn has_own_start(&self) -> bool
        ensures own { result ≡ has_own_start self.now }
    {
        !self.start.is_start()
    }
}

/// The moves of the main line.
pub fn main_line(alloc: Global, g: &Game) -> Result<Vec<Move>, AllocError>
    ensures moves { IfOk result (λ moves. moves.items ≡ main_moves g.now) }
{
    let line = g.line.as_slice();
    let mut moves = Vec::with_capacity(alloc, line.len())?;
    for node in line {
        moves.push(node.mv)?;
    }
    Ok(moves)
}

/// The number of moves of the main line, which is below 2^32.
pub fn plies(g: &Game) -> u32
    requires { plies_of g.now < 2 ^ 32 }
    ensures plies { result ≡ plies_of g.now }
    // What every game keeps.
    ensures is_game { IsGame g.now }
{
    count(g.line.as_slice())
}

// The number of moves of a line.
#[tactic(auto, using(crate::proofs::TreeLemmas::lines))]
fn count(line: &[Node]) -> u32
    requires { length (moves_of (line_of line.now)) < 2 ^ 32 }
    ensures { result ≡ length (moves_of (line_of line.now)) }
{
    line.len() as u32
}
