//! The signature of the game of a record, from its bytes.
ghost use Rattle.std.specs.Prelude.{◌≡◌, ◌<◌, ◌≤◌, ◌^◌, false, if◌then◌else◌, List, [], length, IfOk, IfErr, OnOk, MatchResult};
ghost use Rattle.chess_laws.specs.Position.{start_setup};
ghost use Rattle.game_codec.specs.Fault.{IsRecordFault};
ghost use Rattle.game_codec.specs.Record.{IsRecord};
ghost use Rattle.game_tree.specs.Game.{GameTree};
ghost use Rattle.game_tree.specs.Replay.{plies_of};
ghost use Rattle.game_tree.specs.declared.head.Tag.{Tag as TagValue};
ghost use Rattle.sig_index.specs.Signature.{IsSig, IsSigBounded, all_homes, home_list, left_of};

use crate::leaving::Still;
use crate::signature::{HomeList, Sig, home_list, material_of};
use arrayvec::ArrayVec;
use game_codec::{MainPlace, Reading, RecordFault};
use index_entry::count_code;

/// The signature of the game that the bytes are a record of, or their first fault. The record is read once, and no memory is taken. A
/// record has fewer than 2^32 bytes. Calls for many records lend the same place.
pub fn signed(bytes: &[u8], main: &mut MainPlace) -> Result<Sig, RecordFault>
    requires few { length bytes.now < 2 ^ 32 }
    // The bytes are a record, and the signature is that of its game.
    ensures signed { IfOk result (λ sig. (tags : List TagValue) × ((game : GameTree) × (IsRecord bytes.now tags game × IsSig game sig))) }
    ensures bounded { IfOk result IsSigBounded }
    ensures fault { IfErr result (IsRecordFault bytes.now) }
    // Each record has one.
    ensures only { (tags : List TagValue) (game : GameTree) → IsRecord bytes.now tags game → MatchResult result (IsSig game) (λ _. ⊥) }
{
    let mut reading = Reading::new(bytes, main)?;
    let own_start = !reading.position().is_start();
    let home = left_along(&mut reading, own_start)?;
    let material = material_of(reading.position());
    let plies = reading.ply().min(1023) as u16;
    let totals = reading.finish()?;
    Ok(Sig {
        material,
        home,
        plies,
        promo: totals.promo,
        under: totals.under,
        own_start,
        vars: count_code(totals.variations as u64),
        comments: count_code(totals.comments as u64),
        nags: count_code(totals.nags as u64),
    })
}

// Goes to the end of the main line, and gives the pawns that leave their own squares along it; none if the game has an own start.
fn left_along(reading: &mut Reading<'_>, own_start: bool) -> Result<HomeList, RecordFault>
    requires begun { reading.old.ply ≡ 0 }
    requires initial { own_start ≡ false → reading.old.position ≡ start_setup }
    ensures left { IfOk result (λ left. (tags : List TagValue) (game : GameTree) → IsRecord reading.old.bytes tags game → left ≡ home_list (if own_start then [] else left_of game)) }
    ensures all { OnOk result ((tags : List TagValue) (game : GameTree) → IsRecord reading.old.bytes tags game → plies_of game ≤ reading.new.ply) }
    ensures bytes { reading.new.bytes ≡ reading.old.bytes }
    ensures fault { IfErr result (IsRecordFault reading.old.bytes) }
{
    let mut still = homes_at_start(own_start);
    let mut left = ArrayVec::new();
    'moves: loop {
        // The rules of a position bound where pawns stand.
        let _setup = reading.position().setup();
        let Some(m) = reading.step()? else {
            return Ok(home_list(left.as_slice()));
        };
        still.leave_by(&m, &mut left);
    }
}

// The home values of the pawns that are looked for along a game.
fn homes_at_start(own_start: bool) -> Still
    ensures homes { result ≡ (if own_start then [] else all_homes) }
{
    if own_start {
        Still::none()
    } else {
        Still::all()
    }
}
