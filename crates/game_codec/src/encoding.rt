//! Writing records.
ghost use Rattle.std.specs.Prelude.{◌≡◌, ◌↔◌, ◌<◌, ◌≤◌, ℕ, List, [], ◌∷◌, ◌++◌, All, length, IfOk, IfErr, IsTrue};
ghost use Rattle.game_tree.specs.Head.{IsTag};
ghost use Rattle.game_tree.specs.Kept.{IsGame};
ghost use Rattle.game_tree.specs.Legal.{IsLegalGame};
ghost use Rattle.game_tree.specs.Replay.{plies_of, position_at};
ghost use Rattle.game_codec.specs.Record.{IsRecord};
ghost use Rattle.game_codec.specs.TagSpelling.{counted};
ghost use Rattle.game_codec.specs.Written.{IfTooLong, longest, promotion_flags, tags_text, written_record};
ghost use Rattle.game_codec.specs.Writing.{AddsStart};

use super::fault::EncodeError;
use super::moves::{Body, put_line};
use cell_core::Text;
use chess_laws::{Position, Setup};
use chess_text::write_fen;
use game_tree::{Game, Tag};
use move_codec::Numbered;
use std::alloc::{AllocError, Global};

// The greatest length of a record, in bytes.
const LONGEST: usize = 131_071;

// The room that a record takes at first, in bytes: most records have no more.
const USUAL: usize = 256;

/// A record, and the position in which the main line of its game ends.
#[derive(Debug, Drop)]
pub struct Encoded {
    pub record: Vec<u8>,
    pub last: Setup,
}

/// Writes the record of a legal game with these extra tags, which are within their bounds. The record has one written
/// form, and is read again as the same game and the same tags. `TooLong` comes if it would have more than 131,071 bytes.
pub fn encode_game(alloc: Global, g: &Game, tags: &[Tag]) -> Result<Vec<u8>, EncodeError>
    requires legal { IsLegalGame g.now }
    requires tags { All IsTag tags.now }
    ensures written { IfOk result (λ bytes. bytes.items ≡ written_record tags.now g.now) }
    ensures fits { IfOk result (λ bytes. length bytes.items ≤ longest) }
    ensures read_again { IfOk result (λ bytes. IsRecord bytes.items tags.now g.now) }
    // That form is refused only for its length or for want of memory.
    ensures too_long { IfErr result (IfTooLong (λ n. (n ≡ length (written_record tags.now g.now)) × (longest < n))) }
{
    Ok(encode_to_end(alloc, g, tags)?.record)
}

/// The same with the position in which the main line ends, which is reached where the record is made.
pub fn encode_to_end(alloc: Global, g: &Game, tags: &[Tag]) -> Result<Encoded, EncodeError>
    requires legal { IsLegalGame g.now }
    requires tags { All IsTag tags.now }
    ensures written { IfOk result (λ encoded. encoded.record.items ≡ written_record tags.now g.now) }
    ensures fits { IfOk result (λ encoded. length encoded.record.items ≤ longest) }
    ensures read_again { IfOk result (λ encoded. IsRecord encoded.record.items tags.now g.now) }
    ensures last { IfOk result (λ encoded. encoded.last ≡ position_at g.now (plies_of g.now)) }
    ensures too_long { IfErr result (IfTooLong (λ n. (n ≡ length (written_record tags.now g.now)) × (longest < n))) }
{
    let encoded = whole_record(alloc, g, tags)?;
    let len = encoded.record.len();
    if len > LONGEST {
        Err(EncodeError::TooLong(len as u64))
    } else {
        Ok(encoded)
    }
}

// The record, however long it is.
fn whole_record(alloc: Global, g: &Game, tags: &[Tag]) -> Result<Encoded, AllocError>
    requires legal { IsLegalGame g.now }
    requires tags { All IsTag tags.now }
    ensures written { IfOk result (λ encoded. encoded.record.items ≡ written_record tags.now g.now) }
    ensures last { IfOk result (λ encoded. encoded.last ≡ position_at g.now (plies_of g.now)) }
    ensures is_game { IfOk result (λ _. IsGame g.now) }
{
    let line = g.line.as_slice();
    let mut out = Vec::with_capacity(alloc, USUAL)?;
    put_tags(&mut out, tags)?;
    let flags = promotion_flags(g);
    let start = put_start(alloc, &mut out, &g.start, flags)?;
    let mut position = start.track();
    let mut body = Body::new(alloc, line.len())?;
    put_line(&mut body, &mut position, &g.lead, line)?;
    out.extend_from_slice(body.moves.as_slice())?;
    out.push(15)?;
    out.extend_from_slice(body.texts.as_slice())?;
    Ok(Encoded {
        record: out,
        last: *position.setup(),
    })
}

// The flags that tell of promotions in the main line and in variations: 2 if there is any, and 4 more if there is one
// to another man than a queen.
fn promotion_flags(g: &Game) -> u8
    ensures flags { result ≡ promotion_flags g.now }
    ensures few { result < 8 }
{
    let promotions = g.promotions();
    let any = if promotions.any { 2 } else { 0 };
    let under = if promotions.under { 4 } else { 0 };
    any + under
}

// Adds the tags with their names written out, and the zero byte behind them.
fn put_tags(out: &mut Vec<u8>, tags: &[Tag]) -> Result<(), AllocError>
    requires tags { All IsTag tags.now }
    ensures bytes { IfOk result (λ _. out.new.items ≡ out.old.items ++ (tags_text tags.now ++ 0 ∷ [])) }
{
    for tag in tags {
        put_counted(out, &tag.name)?;
        put_counted(out, &tag.value)?;
    }
    out.push(0)?;
    Ok(())
}

// Adds a text of at most 255 bytes behind its length.
fn put_counted(out: &mut Vec<u8>, text: &Text) -> Result<(), AllocError>
    requires short { length text.now ≤ 255 }
    ensures bytes { IfOk result (λ _. out.new.items ≡ out.old.items ++ counted text.now) }
{
    out.push(text.len() as u8)?;
    out.extend_from_slice(text.as_bytes())?;
    Ok(())
}

// Adds the flags, and the FEN of a start other than the initial position; gives the start with the numbers that its men
// have in the record.
fn put_start(
    alloc: Global,
    out: &mut Vec<u8>,
    start: &Position,
    flags: u8,
) -> Result<Numbered, AllocError>
    requires few { flags < 8 }
    ensures start { IfOk result (λ numbered. AddsStart start.now flags out.old.items out.new.items numbered) }
    ensures position { IfOk result (λ numbered. numbered.position ≡ start.now) }
{
    if start.is_start() {
        out.push(flags)?;
        return Ok(Numbered::standard());
    }
    out.push(1 + flags)?;
    let fen = write_fen(alloc, start)?;
    out.extend_from_slice(fen.as_bytes())?;
    out.push(0)?;
    Ok(Numbered::from_start(*start))
}
