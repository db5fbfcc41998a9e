//! Reading records.
ghost use Rattle.std.specs.Prelude.{◌≡◌, ℕ, ◌<◌, ◌≤◌, ◌^◌, ◌⊎◌, List, All, length, IfOk, IfErr, MatchResult};
ghost use Rattle.game_tree.specs.Game.{GameTree};
ghost use Rattle.game_tree.specs.Head.{IsTag};
ghost use Rattle.game_tree.specs.Legal.{IsLegalGame};
ghost use Rattle.game_tree.specs.Replay.{plies_of, position_at};
ghost use Rattle.game_tree.specs.declared.head.Tag.{Tag as TagValue};
ghost use Rattle.game_codec.specs.Record.{IsRecord};
ghost use Rattle.game_codec.specs.Fault.{IsRecordFault, IfBad};
ghost use Rattle.game_codec.specs.RecordAnswer.{place_of};
ghost use Rattle.game_codec.specs.Flat.{IsRead};
ghost use Rattle.game_codec.specs.declared.fault.RecordFault.{RecordFault as Fault};
ghost use Rattle.game_codec.specs.declared.fault.DecodeError.TheVariants.{Bad, Memory};

use super::breach::Unread;
use super::building::{Built, build};
use super::checking::first_fault;
use super::fault::{DecodeError, RecordWhat};
use super::start::read_start;
use super::tags::read_tags;
use chess_laws::Position;
use game_tree::{Branch, Game, Tag};
use move_codec::{MoveFault, Numbered};
use std::alloc::Global;

/// The game and the extra tags of a record, and the position in which the main line ends.
#[derive(Debug, Drop)]
pub struct Decoded {
    pub game: Game,
    pub tags: Vec<Tag>,
    pub last: Position,
}

/// The game and the extra tags that a record has, in the order of its bytes and without tags of reserved names; or its
/// first fault. `Memory` comes for want of memory alone. A record has fewer than 2^32 bytes.
pub fn decode_game(alloc: Global, bytes: &[u8]) -> Result<Decoded, DecodeError>
    requires few { length bytes.now < 2 ^ 32 }
    // What is decoded is what the bytes say, and where they say a game it is decoded.
    ensures found { IfOk result (λ decoded. IsRecord bytes.now decoded.tags.items decoded.game) }
    ensures only { (tags : List TagValue) (game : GameTree) → IsRecord bytes.now tags game
        → MatchResult result (λ decoded. (decoded.tags.items ≡ tags) × (decoded.game ≡ game)) (λ error. error ≡ Memory) }
    // What is told is the first fault of the bytes, and where they have one it is told.
    ensures fault { IfErr result (IfBad (IsRecordFault bytes.now)) }
    ensures first { (fault : Fault) → IsRecordFault bytes.now fault
        → MatchResult result (λ decoded. ⊥) (λ error. (error ≡ Bad fault) ⊎ (error ≡ Memory)) }
    // The game is legal and has no more moves than its record has bytes, and the tags are within their bounds.
    ensures legal { IfOk result (λ decoded. IsLegalGame decoded.game) }
    ensures short { IfOk result (λ decoded. plies_of decoded.game ≤ length bytes.now) }
    ensures tags { IfOk result (λ decoded. All IsTag decoded.tags.items) }
    // The last position was reached where the moves were read.
    ensures last { IfOk result (λ decoded. decoded.last ≡ position_at decoded.game (plies_of decoded.game)) }
{
    match read_record(alloc, bytes) {
        Ok(read) => Ok(read),
        Err(Unread) => Err(why_unread(bytes)),
    }
}

// Why a record was not read: its first fault, or want of memory where it has none.
fn why_unread(bytes: &[u8]) -> DecodeError
    requires few { length bytes.now < 2 ^ 32 }
    ensures only { (tags : List TagValue) (game : GameTree) → IsRecord bytes.now tags game → result ≡ Memory }
    ensures fault { IfBad (IsRecordFault bytes.now) result }
    ensures first { (fault : Fault) → IsRecordFault bytes.now fault → (result ≡ Bad fault) ⊎ (result ≡ Memory) }
{
    match first_fault(bytes) {
        Some(fault) => DecodeError::Bad(fault),
        None => DecodeError::Memory,
    }
}

// The same without a word of what is wrong. The moves and the texts are gone through at once.
fn read_record(alloc: Global, bytes: &[u8]) -> Result<Decoded, Unread>
    ensures ok { IfOk result (λ read. IsRead bytes.now read.tags.items read.game) }
    ensures last { IfOk result (λ read. read.last ≡ position_at read.game (plies_of read.game)) }
{
    let tags = read_tags(alloc, bytes)?;
    let (_, behind_tags) = bytes.split_at(tags.used);
    let mut start = Numbered::standard();
    let read = read_start(behind_tags, &mut start)?;
    let (_, behind_start) = behind_tags.split_at(read);
    let Built { branch, last } = build(alloc, &start, behind_start)?;
    let Branch { lead, line } = branch;
    let position = start.position();
    // A game begins at a position within the rules.
    let _setup = position.setup();
    Ok(Decoded {
        game: Game {
            start: *position,
            lead,
            line,
        },
        tags: tags.tags,
        last,
    })
}

/// The place of a fault, by the length of the record and the number of bytes from the faulty item on.
pub(crate) fn place_of(len: usize, left: usize, what: RecordWhat) -> u32
    requires few { len < 2 ^ 32 }
    ensures place { (rest : List ℕ) → length rest ≡ left → result ≡ place_of len rest what }
    ensures within { result ≤ len }
{
    match what {
        RecordWhat::Short | RecordWhat::Move(MoveFault::Short) => len as u32,
        _ => len.saturating_sub(left) as u32,
    }
}
