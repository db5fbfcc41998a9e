//! The letters of the marks of games.
ghost use Rattle.std.specs.Prelude.{◌≡◌, length};
ghost use Rattle.game_tree.specs.Marks.{mark_letters};

/// The letters of the marks from the lowest bit on: the twelve user marks and the six custom marks.
pub fn mark_letters() -> &'static [u8]
    ensures letters { result.now ≡ mark_letters }
    ensures all { length result.now ≡ 18 }
{
    b"WBMENPTKQ!?U123456"
}
