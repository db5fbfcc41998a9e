//! What the boards of a book have at least. A game that has less comes to none of them any more.
ghost use Rattle.std.specs.Prelude.{◌≡◌, ◌<◌, All, IfOk, IsBitSet, IsTrue, OnOk, ℕ, true};
ghost use Rattle.std.specs.List.{list_any};
ghost use Rattle.cell_core.specs.Packed.{men_of};
ghost use Rattle.chess_laws.specs.Counts.{is_home};
ghost use Rattle.book_pages.specs.Keeping.{HasHomes, HasNoHomes, HasPart, IsPast, StayHomes, is_part};

use crate::counting::men_in;
use cell_core::{PackedBoard, unpack};
use chess_laws::Position;
use std::alloc::{AllocError, Global};

/// What each of the boards has: at least so many men, kings not counted, and the pawns of one of these sets on their own squares. A set is
/// one of home values, as `Position::home_set` has them.
#[derive(Drop)]
pub(crate) struct Least {
    pub(crate) men: u16,
    pub(crate) homes: Vec<u16>,
}

/// Whether a game that stands here comes to none of the boards, neither here nor later.
pub(crate) fn is_past(least: &Least, place: &Position) -> bool
    ensures past { result ≡ true → IsPast least.now.men least.now.homes.items place.now.board }
{
    if men_in(place) < least.men {
        return true;
    }
    has_none(least.homes.as_slice(), place)
}

// Whether a position has less than each of these sets.
fn has_none(homes: &[u16], place: &Position) -> bool
    ensures none { result ≡ true → HasNoHomes homes.now place.now.board }
{
    if has_part(homes, place.home_set()) {
        return false;
    }
    true
}

/// The sets of pawns on their own squares, of which each board has one.
pub(crate) fn homes_of(alloc: Global, boards: &[PackedBoard]) -> Result<Vec<u16>, AllocError>
    ensures homes { IfOk result (λ homes. All (HasHomes homes.items) boards.now) }
{
    let mut homes = Vec::new(alloc);
    for board in boards {
        add_home(&mut homes, homes_on(board))?;
    }
    Ok(homes)
}

// Adds a set, unless one of those that are there is a part of it.
fn add_home(homes: &mut Vec<u16>, set: u16) -> Result<(), AllocError>
    ensures stay { OnOk result (StayHomes homes.old.items homes.new.items) }
    ensures has { OnOk result (HasPart homes.new.items set) }
{
    if has_part(homes.as_slice(), set) {
        return Ok(());
    }
    homes.push(set)?;
    Ok(())
}

// Whether one of these sets is a part of another.
fn has_part(homes: &[u16], set: u16) -> bool
    ensures any { result ≡ list_any (is_part set) homes.now }
{
    homes.iter().any(|part| *part & set == *part)
}

// The pawns of a board that stand on their own squares, or none if it is not one of a position.
#[tactic(auto, using(crate::proofs::HomeLemmas::no_bits))]
fn homes_on(board: &PackedBoard) -> u16
    ensures home { (v : ℕ) → v < 16 → IsBitSet result v → IsTrue (is_home (men_of board.now.cells) v) }
{
    let (cells, side) = unpack(board);
    match Position::try_new(cells, side, 0, None) {
        Ok(place) => place.home_set(),
        Err(_) => 0,
    }
}
