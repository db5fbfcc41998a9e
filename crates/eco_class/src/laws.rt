//! Laws of the definitions.
ghost use Rattle.std.specs.Prelude.{◌≡◌, ℕ, List, Ok, AllPairs};
ghost use Rattle.game_tree.specs.Game.{GameTree};
ghost use Rattle.eco_class.specs.Reading.{table_of};
ghost use Rattle.eco_class.specs.Table.{EndApart, IsLast, Opening, eco_of};

/// A law: the code that is computed for a game is that of the last position of its main line on which a line of the
/// table ends. There is no code if and only if no line ends on any of these positions.
pub fn codes_are_of_last_positions()
    ensures last { (table : List Opening) (game : GameTree) → IsLast table game (eco_of table game) }
{}

/// A law: no two lines of a table that is read end on the same board with the same side to move.
pub fn lines_end_apart()
    ensures apart { (text : List ℕ) (table : List Opening) → table_of text ≡ Ok table → AllPairs EndApart table }
{}
