//! The walk over a record to its first match.
ghost use Rattle.std.specs.Prelude.{◌≡◌, ◌^◌, ◌<◌, ◌&&◌, List, length, IsTrue, Some, IfOk, IfErr, OnOk, MatchOption, option_map};
ghost use Rattle.game_codec.specs.Record.{IsRecord, IsSomeRecord};
ghost use Rattle.game_tree.specs.Game.{GameTree};
ghost use Rattle.game_tree.specs.declared.head.Tag.{Tag};
ghost use Rattle.pos_search.specs.Matching.{IsLegalFrom, first_of, first_on_main, hit_of, hit_on_main, matches};
ghost use Rattle.pos_search.specs.Searching.{ply_of};
ghost use Rattle.sig_index.specs.Signature.{IsSig};
ghost use Rattle.pos_search.specs.Sought.{Met, found_aside};

use crate::matching::Sought;
use cell_core::Move;
use game_codec::{AllWalk, OuterLines, RecordFault, Walk};
use sig_index::{Brief, PosQuery};

/// Gives the first ply of the main line of a record that matches, with the move after it. If none does and the query
/// looks in variations, it gives the ply of the first of their places that does, without a move. It gives `None` if
/// nothing matches. A record has fewer than 2^32 bytes. No memory is taken, and the walk ends when no match can come.
/// Bytes that give a fault are no record.
pub fn first_match(bytes: &[u8], q: &PosQuery) -> Result<Option<(u32, Option<Move>)>, RecordFault>
    requires few { length bytes.now < 2 ^ 32 }
    ensures first { IfOk result (λ hit. (tags : List Tag) (game : GameTree) → IsRecord bytes.now tags game → hit ≡ hit_of q.now game) }
    ensures legal { IfOk result (λ hit. IsLegalFrom q.now hit) }
    ensures fault { IfErr result (λ _. IsSomeRecord bytes.now → ⊥) }
{
    first_sought(bytes, &Sought::new(q))
}

// The same of what is sought.
pub(crate) fn first_sought(
    bytes: &[u8],
    q: &Sought<'_>,
) -> Result<Option<(u32, Option<Move>)>, RecordFault>
    requires few { length bytes.now < 2 ^ 32 }
    ensures first { IfOk result (λ hit. (tags : List Tag) (game : GameTree) → IsRecord bytes.now tags game → hit ≡ hit_of q.now game) }
    ensures legal { IfOk result (λ hit. IsLegalFrom q.now hit) }
    ensures fault { IfErr result (λ _. IsSomeRecord bytes.now → ⊥) }
{
    if q.looks_aside() {
        first_in_room(bytes, q)
    } else {
        first_on_main(bytes, q)
    }
}

// The same if variations are looked at too, with room for the open lines. It stands apart, so that no other walk has the room cleared.
#[inline(never)]
fn first_in_room(bytes: &[u8], q: &Sought<'_>) -> Result<Option<(u32, Option<Move>)>, RecordFault>
    requires few { length bytes.now < 2 ^ 32 }
    requires aside { IsTrue q.now.vars }
    ensures first { IfOk result (λ hit. (tags : List Tag) (game : GameTree) → IsRecord bytes.now tags game → hit ≡ hit_of q.now game) }
    ensures legal { IfOk result (λ hit. IsLegalFrom q.now hit) }
    ensures fault { IfErr result (λ _. IsSomeRecord bytes.now → ⊥) }
{
    let mut room = OuterLines::new();
    first_in_lines(bytes, q, &mut room)
}

// The same with room that is lent: the main line comes first, wherever its place stands.
fn first_in_lines(
    bytes: &[u8],
    q: &Sought<'_>,
    room: &mut OuterLines,
) -> Result<Option<(u32, Option<Move>)>, RecordFault>
    requires few { length bytes.now < 2 ^ 32 }
    requires aside { IsTrue q.now.vars }
    ensures first { IfOk result (λ hit. (tags : List Tag) (game : GameTree) → IsRecord bytes.now tags game → hit ≡ hit_of q.now game) }
    ensures legal { IfOk result (λ hit. IsLegalFrom q.now hit) }
    ensures fault { IfErr result (λ _. IsSomeRecord bytes.now → ⊥) }
{
    let mut walk = AllWalk::new(bytes, room)?;
    if q.matches(walk.position()) {
        return first_on_main(bytes, q);
    }
    let mut found = None;
    loop {
        match walk.step() {
            Ok(Some(_)) => {}
            Ok(None) => return Ok(hit_aside(found)),
            Err(fault) => return Err(fault),
        }
        if is_met(&walk, q) {
            return first_on_main(bytes, q);
        }
        found = found_aside(found, &walk, q);
    }
}

// Whether the walk is at a place of the main line that matches.
fn is_met(walk: &AllWalk<'_>, q: &Sought<'_>) -> bool
    ensures { result ≡ (walk.now.on_main && matches q.now walk.now.position) }
{
    walk.on_main() && q.matches(walk.position())
}

// The ply of the first place in a variation so far.
fn found_aside(found: Option<u32>, walk: &AllWalk<'_>, q: &Sought<'_>) -> Option<u32>
    ensures { result ≡ found_aside q.now found walk.now }
{
    match found {
        Some(ply) => Some(ply),
        None => {
            if !walk.on_main() && q.matches(walk.position()) {
                Some(walk.ply())
            } else {
                None
            }
        }
    }
}

// The hit at such a place, which has no next move.
fn hit_aside(found: Option<u32>) -> Option<(u32, Option<Move>)>
    ensures { result ≡ option_map (λ ply. (ply, None)) found }
{
    match found {
        Some(ply) => Some((ply, None)),
        None => None,
    }
}

// The ply alone, for which the move after it is not played, of a game with this signature: it tells which games have no variations.
#[tactic(auto, using(crate::proofs::SearchLemmas::main_is_first))]
pub(crate) fn ply_sought(
    bytes: &[u8],
    sig: &Brief<'_>,
    q: &Sought<'_>,
    room: &mut Option<&mut OuterLines>,
) -> Result<Option<u32>, RecordFault>
    requires few { length bytes.now < 2 ^ 32 }
    ensures first { IfOk result (λ ply. (tags : List Tag) (game : GameTree) → IsRecord bytes.now tags game → IsSig game sig.now → ply ≡ first_of q.now game) }
    ensures fault { IfErr result (λ _. IsSomeRecord bytes.now → ⊥) }
{
    let found = ply_on_main(bytes, q)?;
    if found.is_none() && q.looks_into(sig) {
        return ply_in_lines(bytes, q, room);
    }
    Ok(found)
}

// The same of all lines.
fn ply_in_lines(
    bytes: &[u8],
    q: &Sought<'_>,
    room: &mut Option<&mut OuterLines>,
) -> Result<Option<u32>, RecordFault>
    requires few { length bytes.now < 2 ^ 32 }
    requires aside { IsTrue q.now.vars }
    ensures first { IfOk result (λ ply. (tags : List Tag) (game : GameTree) → IsRecord bytes.now tags game → ply ≡ first_of q.now game) }
    ensures fault { IfErr result (λ _. IsSomeRecord bytes.now → ⊥) }
{
    match first_in_lent(bytes, q, room) {
        Ok(hit) => Ok(ply_of(hit)),
        Err(fault) => Err(fault),
    }
}

// The hit of all lines, in the room that is lent, if one is.
fn first_in_lent(
    bytes: &[u8],
    q: &Sought<'_>,
    room: &mut Option<&mut OuterLines>,
) -> Result<Option<(u32, Option<Move>)>, RecordFault>
    requires few { length bytes.now < 2 ^ 32 }
    requires aside { IsTrue q.now.vars }
    ensures first { IfOk result (λ hit. (tags : List Tag) (game : GameTree) → IsRecord bytes.now tags game → hit ≡ hit_of q.now game) }
    ensures fault { IfErr result (λ _. IsSomeRecord bytes.now → ⊥) }
{
    match room {
        Some(room) => first_in_lines(bytes, q, room),
        None => first_in_room(bytes, q),
    }
}

// The ply of a hit.
fn ply_of(hit: Option<(u32, Option<Move>)>) -> Option<u32>
    ensures { result ≡ ply_of hit }
{
    match hit {
        Some((ply, _)) => Some(ply),
        None => None,
    }
}

// The ply of the first place of the main line.
fn ply_on_main(bytes: &[u8], q: &Sought<'_>) -> Result<Option<u32>, RecordFault>
    requires few { length bytes.now < 2 ^ 32 }
    ensures first { IfOk result (λ ply. (tags : List Tag) (game : GameTree) → IsRecord bytes.now tags game → ply ≡ first_on_main q.now game) }
    ensures fault { IfErr result (λ _. IsSomeRecord bytes.now → ⊥) }
{
    let mut walk = Walk::new(bytes)?;
    walk_to(&mut walk, q)
}

// The first place of the main line, with the move after it.
fn first_on_main(bytes: &[u8], q: &Sought<'_>) -> Result<Option<(u32, Option<Move>)>, RecordFault>
    requires few { length bytes.now < 2 ^ 32 }
    ensures first { IfOk result (λ hit. (tags : List Tag) (game : GameTree) → IsRecord bytes.now tags game → hit ≡ hit_on_main q.now game) }
    ensures legal { IfOk result (λ hit. IsLegalFrom q.now hit) }
    ensures fault { IfErr result (λ _. IsSomeRecord bytes.now → ⊥) }
{
    let mut walk = Walk::new(bytes)?;
    match walk_to(&mut walk, q) {
        Ok(Some(ply)) => with_next(&mut walk, ply, q),
        Ok(None) => Ok(None),
        Err(fault) => Err(fault),
    }
}

// The hit at this ply, where the walk stands.
fn with_next(
    walk: &mut Walk<'_>,
    ply: u32,
    q: &Sought<'_>,
) -> Result<Option<(u32, Option<Move>)>, RecordFault>
    requires met { Met q.now walk.old ply }
    requires first { (tags : List Tag) (game : GameTree) → IsRecord walk.old.bytes tags game → Some ply ≡ first_on_main q.now game }
    ensures first { IfOk result (λ hit. (tags : List Tag) (game : GameTree) → IsRecord walk.old.bytes tags game → hit ≡ hit_on_main q.now game) }
    ensures legal { IfOk result (λ hit. IsLegalFrom q.now hit) }
    ensures fault { IfErr result (λ _. IsSomeRecord walk.old.bytes → ⊥) }
{
    match walk.step() {
        Ok(next) => Ok(Some((ply, next))),
        Err(fault) => Err(fault),
    }
}

// Goes on with a walk that has just begun, to the first place that matches, and gives its ply.
fn walk_to(walk: &mut Walk<'_>, q: &Sought<'_>) -> Result<Option<u32>, RecordFault>
    requires start { walk.old.ply ≡ 0 }
    ensures first { IfOk result (λ ply. (tags : List Tag) (game : GameTree) → IsRecord walk.old.bytes tags game → ply ≡ first_on_main q.now game) }
    ensures met { IfOk result (λ ply. MatchOption ply (Unit {0}) (λ k. Met q.now walk.new k)) }
    ensures bytes { OnOk result (walk.new.bytes ≡ walk.old.bytes) }
    ensures fault { IfErr result (λ _. IsSomeRecord walk.old.bytes → ⊥) }
{
    let mut coming = q.at_first();
    loop {
        let ply = walk.ply();
        if q.matches(walk.position()) {
            return Ok(Some(ply));
        }
        if !q.can_follow(walk.position(), &mut coming) {
            return Ok(None);
        }
        match walk.step() {
            Ok(Some(_)) => {}
            Ok(None) => return Ok(None),
            Err(fault) => return Err(fault),
        }
    }
}
