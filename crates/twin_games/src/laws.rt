//! A law of the definitions.
ghost use Rattle.std.specs.Prelude.{◌≡◌, ◌≤◌, ◌<◌, ◌↔◌, ℕ, All, AllPairs, Contains, List, length};
ghost use Rattle.chess_laws.specs.Position.{Sound};
ghost use Rattle.game_tree.specs.Game.{GameTree};
ghost use Rattle.game_tree.specs.declared.head.Head.{Head};
ghost use Rattle.twin_games.specs.Twins.{Twin, twins_of};

/// A law: the numbers listed as twins are exactly those of the games that are twins, and they rise.
pub fn twins_are_those_listed()
    ensures listed { (heads : List Head) (games : List GameTree) (depth i : ℕ) → Contains (twins_of heads games depth) i ↔ Twin heads games depth i }
    ensures rising { (heads : List Head) (games : List GameTree) (depth : ℕ) → AllPairs (λ i j. i < j) (twins_of heads games depth) }
{}
