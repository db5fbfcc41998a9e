//! Which games are legal.
ghost use Rattle.std.specs.Prelude.{◌≡◌, ◌↔◌, ◌<◌, ◌≤◌, ◌+◌, ℕ, List, Some, None, IsTrue};
ghost use Rattle.cell_core.specs.declared.step.Move.{Move};
ghost use Rattle.chess_laws.specs.Step.{Step};
ghost use Rattle.game_tree.specs.Replay.{main_moves, plies_of, position_at, next_at};
ghost use Rattle.game_tree.specs.Tree.{line_of, branches_of, depth_of, depth_within};
ghost use Rattle.game_tree.specs.Comments.{with_comments, KeepsTexts};
ghost use Rattle.game_tree.specs.Game.{GameTree};
ghost use Rattle.game_tree.specs.Legal.{IsComment, IsLegalLine, AreLegalBranches, IsLegalGame};

use super::game::Game;
use super::node::{Branch, Node};
use cell_core::Text;
use chess_laws::Position;

/// How many variations may be open at one place of a game.
pub const DEEPEST: u32 = 200;

/// Whether each line of the game is a chain of legal moves from its own position, at most `DEEPEST` variations are open at
/// one place, and no comment is empty.
pub fn legal(g: &Game) -> bool
    ensures legal { IsTrue result ↔ IsLegalGame g.now }

    // The replay of a legal game goes from each position to the next by the legal move between them, and ends behind the
    // last.
    ensures replay { IsTrue result → (k : ℕ) → k < plies_of g.now
        → (m : Move) × ((next_at g.now k ≡ Some m) × Step (position_at g.now k) m (position_at g.now (k + 1))) }
    ensures ends { (position_at g.now 0 ≡ g.now.start) × (next_at g.now (plies_of g.now) ≡ None) }
{
    is_legal_game(g)
}

// The same, without what it says of the replay.
fn is_legal_game(g: &Game) -> bool
    ensures { IsTrue result ↔ IsLegalGame g.now }
{
    is_comment(&g.lead)
        && is_within(g.line.as_slice(), DEEPEST)
        && is_legal_line(&g.start, g.line.as_slice())
}

// Whether there is no comment, or one that is not empty.
fn is_comment(comment: &Option<Text>) -> bool
    ensures { IsTrue result ↔ IsComment comment.now }
{
    match comment {
        None => true,
        Some(text) => !text.is_empty(),
    }
}

// Whether at most `room` variations are open at one place of the line.
#[cycle(depth)]
fn is_within(line: &[Node], room: u32) -> bool
    ensures { IsTrue result ↔ (depth_of (line_of line.now) ≤ room) }
{
    for node in line {
        if !are_within(node.variations.as_slice(), room) {
            return false;
        }
    }
    true
}

// Whether at most `room` variations are open at one place of these variations, themselves counted.
#[cycle(depth)]
fn are_within(branches: &[Branch], room: u32) -> bool
    ensures { IsTrue result ↔ (depth_within (branches_of branches.now) ≤ room) }
{
    for branch in branches {
        if room == 0 {
            return false;
        }
        if !is_within(branch.line.as_slice(), room - 1) {
            return false;
        }
    }
    true
}

// Whether the line is a chain of legal moves from this position, and so is each of its variations.
#[cycle(legality)]
fn is_legal_line(start: &Position, line: &[Node]) -> bool
    ensures { IsTrue result ↔ IsLegalLine start.now (line_of line.now) }
{
    let mut position = *start;
    for node in line {
        if !position.is_legal(node.mv) {
            return false;
        }
        if !is_comment(&node.comment) {
            return false;
        }
        if !are_legal_branches(&position, node.variations.as_slice()) {
            return false;
        }
        position.play(node.mv);
    }
    true
}

// Whether each of these variations is a chain of legal moves from this position.
#[cycle(legality)]
fn are_legal_branches(position: &Position, branches: &[Branch]) -> bool
    ensures { IsTrue result ↔ AreLegalBranches position.now (branches_of branches.now) }
{
    for branch in branches {
        if !is_comment(&branch.lead) {
            return false;
        }
        if !is_legal_line(position, branch.line.as_slice()) {
            return false;
        }
    }
    true
}

/// A law: other texts in the comments of a game, none of them empty, leave its moves and the depth of its variations as
/// they are, and leave a legal game legal.
pub fn comments_leave_the_moves()
    ensures moves { (f : List ℕ → List ℕ) (game : GameTree) → main_moves (with_comments f game) ≡ main_moves game }
    ensures depth { (f : List ℕ → List ℕ) (game : GameTree) → depth_of (with_comments f game).line ≡ depth_of game.line }
    ensures legal { (f : List ℕ → List ℕ) (game : GameTree) → KeepsTexts f → IsLegalGame game → IsLegalGame (with_comments f game) }
{}
