//! Writing the moves of a record and the texts of its comments.
ghost use Rattle.std.specs.Prelude.{◌≡◌, ◌++◌, [], fold, IfOk};
ghost use Rattle.chess_laws.specs.Step.{Legal, stepped};
ghost use Rattle.game_tree.specs.Tree.{line_of, branches_of, moves_of};
ghost use Rattle.game_tree.specs.Written.{comment_before, movetext_of};
ghost use Rattle.game_tree.specs.Legal.{IsLegalLine, AreLegalBranches};
ghost use Rattle.move_codec.specs.Packed.{encoding};
ghost use Rattle.game_codec.specs.Place.{numbered_after};
ghost use Rattle.game_codec.specs.Texts.{texts_of, ended};
ghost use Rattle.game_codec.specs.Written.{moves_text};
ghost use Rattle.game_codec.specs.Writing.{comment_text, mark_text, nags_text, node_text, node_texts, variations_text, variations_texts};

use cell_core::Text;
use game_tree::{Branch, Node};
use move_codec::Track;
use std::alloc::{AllocError, Global};

/// The moves and marks of a record, and the texts of its comments with their zero bytes.
#[derive(Debug, Drop)]
pub(crate) struct Body {
    pub(crate) moves: Vec<u8>,
    pub(crate) texts: Vec<u8>,
}

impl Body {
    /// Nothing yet, with room for so many bytes of moves.
    pub(crate) fn new(alloc: Global, room: usize) -> Result<Body, AllocError>
        ensures moves { IfOk result (λ body. body.moves.items ≡ []) }
        ensures texts { IfOk result (λ body. body.texts.items ≡ []) }
    {
        Ok(Body {
            moves: Vec::with_capacity(alloc, room)?,
            texts: Vec::new(alloc),
        })
    }

    // Adds a comment, if there is one.
    fn put_comment(&mut self, comment: &Option<Text>) -> Result<(), AllocError>
        ensures moves { IfOk result (λ _. self.new.moves.items ≡ self.old.moves.items ++ mark_text comment.now) }
        ensures texts { IfOk result (λ _. self.new.texts.items ≡ self.old.texts.items ++ comment_text comment.now) }
    {
        let Some(text) = comment else {
            return Ok(());
        };
        self.moves.push(12)?;
        self.texts.extend_from_slice(text.as_bytes())?;
        self.texts.push(0)?;
        Ok(())
    }

    // Adds the bytes of a move, which are few.
    fn put_move(&mut self, bytes: &[u8]) -> Result<(), AllocError>
        ensures moves { IfOk result (λ _. self.new.moves.items ≡ self.old.moves.items ++ bytes.now) }
        ensures texts { IfOk result (λ _. self.new.texts ≡ self.old.texts) }
    {
        for byte in bytes {
            self.moves.push(*byte)?;
        }
        Ok(())
    }

    // Adds the NAGs of a move.
    fn put_nags(&mut self, nags: &[u8]) -> Result<(), AllocError>
        ensures moves { IfOk result (λ _. self.new.moves.items ≡ self.old.moves.items ++ nags_text nags.now) }
        ensures texts { IfOk result (λ _. self.new.texts ≡ self.old.texts) }
    {
        for nag in nags {
            self.moves.push(11)?;
            self.moves.push(*nag)?;
        }
        Ok(())
    }
}

/// Adds a line that begins at this position: its comment, and then its moves. The position becomes the one that it ends in.
#[cycle(lines)]
pub(crate) fn put_line(
    body: &mut Body,
    position: &mut Track,
    lead: &Option<Text>,
    line: &[Node],
) -> Result<(), AllocError>
    requires legal { IsLegalLine position.old.position (line_of line.now) }
    ensures moves { IfOk result (λ _. body.new.moves.items
        ≡ body.old.moves.items ++ moves_text position.old position.old (comment_before lead.now (movetext_of (line_of line.now)))) }
    ensures texts { IfOk result (λ _. body.new.texts.items
        ≡ body.old.texts.items ++ ended (texts_of (comment_before lead.now (movetext_of (line_of line.now))))) }
    ensures end { IfOk result (λ _. position.new.position ≡ fold stepped position.old.position (moves_of (line_of line.now))) }
{
    body.put_comment(lead)?;
    for node in line {
        put_node(body, position, node)?;
    }
    Ok(())
}

// Adds a move of a line, by the position before it, with its NAGs, its comment and its variations, and plays it.
#[cycle(lines)]
fn put_node(body: &mut Body, position: &mut Track, node: &Node) -> Result<(), AllocError>
    requires legal { Legal position.old.position node.now.mv }
    requires variations { AreLegalBranches position.old.position node.now.variations }
    ensures moves { IfOk result (λ _. body.new.moves.items ≡ body.old.moves.items ++ node_text position.old node.now) }
    ensures texts { IfOk result (λ _. body.new.texts.items ≡ body.old.texts.items ++ node_texts node.now) }
    ensures played { IfOk result (λ _. position.new ≡ numbered_after position.old node.now.mv) }
{
    if node.variations.as_slice().is_empty() {
        return put_own(body, position, node);
    }
    put_varied(body, position, node)
}

// The same of a move with variations, which begin at the position before it. It stands apart, so that a move without one has no room made
// for the copy of the position.
#[inline(never)]
#[cycle(lines)]
fn put_varied(body: &mut Body, position: &mut Track, node: &Node) -> Result<(), AllocError>
    requires legal { Legal position.old.position node.now.mv }
    requires variations { AreLegalBranches position.old.position node.now.variations }
    ensures moves { IfOk result (λ _. body.new.moves.items ≡ body.old.moves.items ++ node_text position.old node.now) }
    ensures texts { IfOk result (λ _. body.new.texts.items ≡ body.old.texts.items ++ node_texts node.now) }
    ensures played { IfOk result (λ _. position.new ≡ numbered_after position.old node.now.mv) }
{
    let before = position.copy();
    put_own(body, position, node)?;
    put_variations(body, &before, node.variations.as_slice())?;
    Ok(())
}

// Adds a move of a line with its NAGs and its comment, and plays it.
fn put_own(body: &mut Body, position: &mut Track, node: &Node) -> Result<(), AllocError>
    requires legal { Legal position.old.position node.now.mv }
    ensures moves { IfOk result (λ _. body.new.moves.items
        ≡ body.old.moves.items ++ (encoding position.old node.now.mv ++ (nags_text node.now.nags ++ mark_text node.now.comment))) }
    ensures texts { IfOk result (λ _. body.new.texts.items ≡ body.old.texts.items ++ comment_text node.now.comment) }
    ensures played { IfOk result (λ _. position.new ≡ numbered_after position.old node.now.mv) }
{
    let bytes = position.pack(&node.mv);
    body.put_move(bytes.as_slice())?;
    body.put_nags(node.nags.as_slice())?;
    body.put_comment(&node.comment)?;
    Ok(())
}

// Adds the variations of a move, which begin at the position before it.
#[cycle(lines)]
fn put_variations(body: &mut Body, start: &Track, variations: &[Branch]) -> Result<(), AllocError>
    requires legal { AreLegalBranches start.now.position (branches_of variations.now) }
    ensures moves { IfOk result (λ _. body.new.moves.items ≡ body.old.moves.items ++ variations_text start.now (branches_of variations.now)) }
    ensures texts { IfOk result (λ _. body.new.texts.items ≡ body.old.texts.items ++ variations_texts (branches_of variations.now)) }
{
    for variation in variations {
        body.moves.push(13)?;
        let mut position = start.copy();
        put_line(
            body,
            &mut position,
            &variation.lead,
            variation.line.as_slice(),
        )?;
        body.moves.push(14)?;
    }
    Ok(())
}
