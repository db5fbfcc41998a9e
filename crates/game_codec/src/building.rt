//! Making the tree of a record's game in one pass over its moves and its texts.
ghost use Rattle.std.specs.Prelude.{◌≡◌, ◌-◌, ◌≤◌, ℕ, [], IsSome, IsTrue, List, drop, fold, length, IfOk, OnOk};
ghost use Rattle.chess_laws.specs.Step.{stepped};
ghost use Rattle.game_tree.specs.Movetext.{Movetext};
ghost use Rattle.game_tree.specs.Tree.{moves_of};
ghost use Rattle.game_codec.specs.Adding.{Adds};
ghost use Rattle.game_codec.specs.Dealing.{Deals, IsTreeOf};
ghost use Rattle.game_codec.specs.Fitting.{MayAdd};
ghost use Rattle.game_codec.specs.Leading.{LeadsOn};
ghost use Rattle.game_codec.specs.Moves.{SpellsMoves};
ghost use Rattle.game_codec.specs.Nests.{token_of};
ghost use Rattle.game_codec.specs.Scanning.{tokens_then};
ghost use Rattle.game_codec.specs.Token.{Comment};

use super::breach::Unread;
use super::place::Place;
use super::texts::zero_at;
use super::token::Token;
use super::tokens::next_token;
use cell_core::Text;
use chess_laws::Position;
use game_tree::{Branch, Builder};
use move_codec::Numbered;
use std::alloc::Global;

// How many bytes a line takes of the moves, with its end, and its comments of the texts.
#[derive(Clone, Copy, Debug, Drop)]
struct Taken {
    moves: usize,
    texts: usize,
}

impl Taken {
    // What was taken of both where so much is left.
    fn of(bytes: &[u8], rest: &[u8], texts: &[u8], left: &[u8]) -> Taken
        requires moves { length rest.now ≤ length bytes.now }
        requires texts { length left.now ≤ length texts.now }
        ensures moves { result.moves ≡ length bytes.now - length rest.now }
        ensures texts { result.texts ≡ length texts.now - length left.now }
    {
        Taken {
            moves: bytes.len() - rest.len(),
            texts: texts.len() - left.len(),
        }
    }
}

/// The tree of a game, and the position in which its main line ends.
#[derive(Drop)]
pub(crate) struct Built {
    pub(crate) branch: Branch,
    pub(crate) last: Position,
}

/// Makes the tree of a game from its moves, which begin here, and the texts of its comments, which follow. The texts end where the
/// record does.
pub(crate) fn build(alloc: Global, start: &Numbered, bytes: &[u8]) -> Result<Built, Unread>
    ensures ok { IfOk result (λ built. IsTreeOf start.now bytes.now built.branch) }
    ensures last { IfOk result (λ built. built.last ≡ fold stepped start.now.position (moves_of built.branch.line)) }
{
    let (_, texts) = bytes.split_at(moves_len(bytes));
    let mut builder = Builder::new(alloc);
    let mut place = Place::beginning(0, start.copy());
    let taken = build_line(alloc, &mut place, bytes, texts, &mut builder)?;
    if bytes.len() - taken.moves != texts.len() || taken.texts != texts.len() {
        return Err(Unread);
    }
    let branch = builder.finish(alloc)?;
    Ok(Built {
        branch,
        last: *place.position(),
    })
}

// How many bytes the moves of a record take with the end of the game, if they have no fault: up to the first byte 15 that is not the
// number of a NAG.
fn moves_len(bytes: &[u8]) -> usize
    ensures within { result ≤ length bytes.now }
{
    let mut at = 0;
    while at < bytes.len() {
        match bytes[at] {
            15 => return at + 1,
            11 => at += 2,
            _ => at += 1,
        }
    }
    bytes.len()
}

// Adds a line from its beginning to its end, where the place is then, and its variations by a call of itself. Each comment has the next
// of the texts.
fn build_line(
    alloc: Global,
    place: &mut Place,
    bytes: &[u8],
    texts: &[u8],
    builder: &mut Builder,
) -> Result<Taken, Unread>
    requires moved { IsTrue place.old.has_move → IsSome builder.old.current.last }
    ensures built { IfOk result (λ taken. (s : Movetext) × (SpellsMoves place.old s bytes.now (drop taken.moves bytes.now)
        × Deals (tokens_then s []) texts.now (drop taken.texts texts.now) builder.old builder.new)) }
    ensures leads { OnOk result (LeadsOn place.old builder.old place.new builder.new) }
    ensures moves { IfOk result (λ taken. taken.moves ≤ length bytes.now) }
    ensures texts { IfOk result (λ taken. taken.texts ≤ length texts.now) }
    ensures outer { OnOk result (builder.new.outer ≡ builder.old.outer) }
{
    let mut rest = bytes;
    let mut left = texts;
    'items: loop {
        let next = next_token(place, rest)?;
        rest = rest.split_at(next.used).1;
        match next.token {
            Token::Open => {
                builder.open(alloc)?;
                let mut inner = place.variation();
                let taken = build_line(alloc, &mut inner, rest, left, builder)?;
                rest = rest.split_at(taken.moves).1;
                left = left.split_at(taken.texts).1;
                builder.close(alloc)?;
            }
            Token::Close => return Ok(Taken::of(bytes, rest, texts, left)),
            Token::End => return Ok(Taken::of(bytes, rest, texts, left)),
            token => {
                let used = add(alloc, builder, &token, left)?;
                left = left.split_at(used).1;
            }
        }
    }
}

// Adds a move, a NAG or a comment, this one with the text that the bytes begin with, and gives how many bytes of the texts it took.
fn add(alloc: Global, builder: &mut Builder, token: &Token, bytes: &[u8]) -> Result<usize, Unread>
    requires may { MayAdd (token_of token.now) builder.old }
    ensures adds { IfOk result (λ used. Adds (token_of token.now) bytes.now builder.old used builder.new) }
    ensures used { IfOk result (λ used. used ≤ length bytes.now) }
{
    match *token {
        Token::Comment => return add_comment(alloc, builder, bytes),
        Token::Play(m) => builder.play(alloc, m)?,
        Token::Nag(nag) => builder.nag(alloc, nag)?,
        Token::Open => builder.open(alloc)?,
        Token::Close => builder.close(alloc)?,
        Token::End => {}
    }
    Ok(0)
}

// Adds a comment with the text that the bytes begin with.
fn add_comment(alloc: Global, builder: &mut Builder, bytes: &[u8]) -> Result<usize, Unread>
    ensures adds { IfOk result (λ used. Adds Comment bytes.now builder.old used builder.new) }
    ensures used { IfOk result (λ used. used ≤ length bytes.now) }
{
    let Some(len) = zero_at(bytes) else {
        return Err(Unread);
    };
    let text = Text::from_zero_free(Vec::from_slice(alloc, bytes.split_at(len).0)?);
    builder.comment(alloc, text)?;
    Ok(len + 1)
}
