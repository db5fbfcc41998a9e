//! The tokens of a game's lines, with the positions played along.
ghost use Rattle.std.specs.Prelude.{◌≡◌, ◌<◌, ◌+◌, ◌^◌, OnOk, true};
ghost use Rattle.chess_laws.specs.Step.{Legal, stepped};
ghost use Rattle.game_tree.specs.Tree.{line_of, branches_of};
ghost use Rattle.game_tree.specs.Legal.{IsLegalLine, AreLegalBranches};
ghost use Rattle.game_tree.specs.Written.{comment_before, movetext_of};
ghost use Rattle.pgn_write.specs.Tokens.{tokens_from, number_behind, number_due};
ghost use Rattle.pgn_write.specs.Writing.{put_all, size, IsLow, turn, comment_tokens, nag_tokens, move_tokens, branch_tokens, own_tokens, node_tokens, has_variations, is_resumed};

use crate::writer::Writer;
use cell_core::{Colour, Move, Text};
use chess_laws::Position;
use chess_text::play_san;
use game_tree::{Branch, Node};
use std::alloc::AllocError;

/// Adds a line that begins at this position, whose first move has this number: its comment, and then its moves.
#[cycle(lines)]
pub(crate) fn put_line(
    writer: &mut Writer,
    start: &Position,
    first: u64,
    lead: &Option<Text>,
    line: &[Node],
) -> Result<(), AllocError>
    requires legal { IsLegalLine start.now (line_of line.now) }
    requires low { IsLow start.now.side first (size writer.old) }
    ensures tokens { OnOk result (writer.new ≡ put_all (tokens_from (turn start.now first) (turn start.now first) true
        (comment_before lead.now (movetext_of (line_of line.now)))) writer.old) }
{
    put_comment(writer, lead)?;
    let mut position = *start;
    let mut number = first;
    let mut resumed = true;
    for node in line {
        let mover = position.side();
        put_node(writer, &mut position, number, resumed, node)?;
        let bytes = writer.size();
        prove!(number <= bytes);
        resumed = is_resumed(node);
        number = number_behind(mover, number);
    }
    Ok(())
}

// Adds a move of a line, by the position before it, with its NAGs, its comment and its variations, and plays it.
#[cycle(lines)]
fn put_node(
    writer: &mut Writer,
    position: &mut Position,
    number: u64,
    resumed: bool,
    node: &Node,
) -> Result<(), AllocError>
    requires legal { Legal position.old node.now.mv }
    requires variations { AreLegalBranches position.old node.now.variations }
    requires low { IsLow position.old.side number (size writer.old) }
    ensures tokens { OnOk result (writer.new ≡ put_all (node_tokens (turn position.old number) resumed node.now) writer.old) }
    ensures played { OnOk result (position.new ≡ stepped position.old node.now.mv) }
{
    if !has_variations(node.variations.as_slice()) {
        put_own(writer, position, number, resumed, node)?;
        return Ok(());
    }
    let start = *position;
    put_own(writer, position, number, resumed, node)?;
    put_branches(writer, &start, number, node.variations.as_slice())?;
    Ok(())
}

// Adds the variations of a move, which begin at the position before it.
#[cycle(lines)]
fn put_branches(
    writer: &mut Writer,
    start: &Position,
    first: u64,
    branches: &[Branch],
) -> Result<(), AllocError>
    requires legal { AreLegalBranches start.now (branches_of branches.now) }
    requires low { IsLow start.now.side first (size writer.old) }
    ensures tokens { OnOk result (writer.new ≡ put_all (branch_tokens (turn start.now first) (branches_of branches.now)) writer.old) }
{
    for branch in branches {
        writer.open()?;
        put_line(writer, start, first, &branch.lead, branch.line.as_slice())?;
        writer.close()?;
    }
    Ok(())
}

// Adds a move of a line, by the position before it, with its NAGs and its comment, and plays it.
fn put_own(
    writer: &mut Writer,
    position: &mut Position,
    number: u64,
    resumed: bool,
    node: &Node,
) -> Result<(), AllocError>
    requires legal { Legal position.old node.now.mv }
    requires low { IsLow position.old.side number (size writer.old) }
    ensures tokens { OnOk result (writer.new ≡ put_all (own_tokens (turn position.old number) resumed node.now) writer.old) }
    ensures low { OnOk result (IsLow position.old.side number (size writer.new)) }
    ensures played { OnOk result (position.new ≡ stepped position.old node.now.mv) }
{
    put_move(writer, position, number, resumed, &node.mv)?;
    put_nags(writer, node.nags.as_slice())?;
    put_comment(writer, &node.comment)?;
    Ok(())
}

// Adds a move, with its number if that is due, and plays it.
fn put_move(
    writer: &mut Writer,
    position: &mut Position,
    number: u64,
    resumed: bool,
    mv: &Move,
) -> Result<(), AllocError>
    requires legal { Legal position.old mv.now }
    ensures tokens { OnOk result (writer.new ≡ put_all (move_tokens (turn position.old number) resumed mv.now) writer.old) }
    ensures played { OnOk result (position.new ≡ stepped position.old mv.now) }
{
    put_number(writer, position.side(), number, resumed)?;
    let text = play_san(position, mv);
    writer.mv(text.as_slice())?;
    Ok(())
}

// Adds the number of a move, if it is due.
fn put_number(
    writer: &mut Writer,
    side: Colour,
    number: u64,
    resumed: bool,
) -> Result<(), AllocError>
    ensures tokens { OnOk result (writer.new ≡ put_all (number_due side number resumed) writer.old) }
{
    match side {
        Colour::White => writer.number(number, Colour::White),
        Colour::Black if resumed => writer.number(number, Colour::Black),
        Colour::Black => Ok(()),
    }
}

// Adds the NAGs of a move.
fn put_nags(writer: &mut Writer, nags: &[u8]) -> Result<(), AllocError>
    ensures tokens { OnOk result (writer.new ≡ put_all (nag_tokens nags.now) writer.old) }
{
    for nag in nags {
        writer.nag(*nag)?;
    }
    Ok(())
}

// Adds a comment, if there is one.
fn put_comment(writer: &mut Writer, comment: &Option<Text>) -> Result<(), AllocError>
    ensures tokens { OnOk result (writer.new ≡ put_all (comment_tokens comment.now) writer.old) }
{
    let Some(text) = comment else {
        return Ok(());
    };
    writer.comment(text.as_bytes())
}

// Whether a comment or a variation stands behind a move.
fn is_resumed(node: &Node) -> bool
    ensures { result ≡ is_resumed node.now }
{
    node.comment.is_some() || has_variations(node.variations.as_slice())
}

// Whether there is a variation.
#[tactic(auto, using(crate::proofs::WritingLaws::variations_there))]
fn has_variations(branches: &[Branch]) -> bool
    ensures { result ≡ has_variations (branches_of branches.now) }
{
    !branches.is_empty()
}

// The number of the move behind one of this side.
fn number_behind(side: Colour, number: u64) -> u64
    requires fits { number + 1 < 2 ^ 64 }
    ensures { result ≡ number_behind side number }
{
    match side {
        Colour::White => number,
        Colour::Black => number + 1,
    }
}
