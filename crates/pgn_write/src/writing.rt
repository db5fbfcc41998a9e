//! Games written as text.
ghost use Rattle.std.specs.Prelude.{◌≡◌, ◌≤◌, ◌++◌, OnOk, OnErr, IfOk, length};
ghost use Rattle.game_tree.specs.Head.{head_of, IsBounded};
ghost use Rattle.game_tree.specs.Legal.{IsLegalGame};
ghost use Rattle.pgn_write.specs.Pgn.{pgn_of};
ghost use Rattle.pgn_write.specs.Tokens.{tokens_of};
ghost use Rattle.pgn_write.specs.Layout.{layout};

use crate::movetext::put_line;
use crate::tag_pairs::put_tags;
use crate::writer::Writer;
use game_tree::{Game, HeadRef, Outcome, Tag};
use std::alloc::{AllocError, Global};

// How many bytes are taken at first for the text of a game.
const USUAL: usize = 2_048;

/// Adds a legal game to `into` in Portable Game Notation (PGN standard, section 8): the tags one a line, an empty line,
/// the movetext on lines of at most 79 bytes, and an empty line. The head and its tags are within their bounds. Moves
/// are numbered from 1, even from a start other than the initial position. It fails only for want of memory, and then
/// `into` is as before.
pub fn write_game(
    alloc: Global,
    head: HeadRef<'_>,
    tags: &[Tag],
    g: &Game,
    into: &mut Vec<u8>,
) -> Result<(), AllocError>
    requires legal { IsLegalGame g.now }
    requires bounded { IsBounded (head_of head tags.now) }
    ensures written { OnOk result (into.new.items ≡ into.old.items ++ pgn_of (head_of head.entry tags.now) g.now) }
    ensures unchanged { OnErr result (into.new.items ≡ into.old.items) }
{
    let text = game_text(alloc, &head, tags, g)?;
    into.extend_from_slice(text.as_slice())
}

// The text of a game.
fn game_text(
    alloc: Global,
    head: &HeadRef<'_>,
    tags: &[Tag],
    g: &Game,
) -> Result<Vec<u8>, AllocError>
    requires legal { IsLegalGame g.now }
    requires bounded { IsBounded (head_of head.now tags.now) }
    ensures text { IfOk result (λ text. text.items ≡ pgn_of (head_of head.now tags.now) g.now) }
{
    let mut out = Vec::with_capacity(alloc, USUAL)?;
    put_tags(alloc, &mut out, head, tags, g)?;
    out.push(b'\n')?;
    let mut text = with_movetext(out, g, head.result)?;
    text.extend_from_slice(b"\n\n")?;
    Ok(text)
}

// A text of two bytes or more, and the movetext of a game behind it.
fn with_movetext(out: Vec<u8>, g: &Game, outcome: Outcome) -> Result<Vec<u8>, AllocError>
    requires legal { IsLegalGame g.now }
    requires some { 2 ≤ length out.items }
    ensures text { IfOk result (λ text. text.items ≡ out.items ++ layout (tokens_of g.now outcome)) }
{
    let mut writer = Writer::new(out);
    put_line(&mut writer, &g.start, 1, &g.lead, g.line.as_slice())?;
    writer.ending(outcome)?;
    writer.flush()?;
    Ok(writer.into_written())
}
