//! A law of the moves of all lines.
ghost use Rattle.std.specs.Prelude.{◌≡◌, filter};
ghost use Rattle.game_tree.specs.Game.{GameTree};
ghost use Rattle.game_tree.specs.Replay.{main_moves};
ghost use Rattle.game_codec.specs.Visits.{Visit, all_visits, main_visits};

/// A law: among all moves of a game those that stand on the main line are the moves of its replay, one after the other.
pub fn all_moves_have_the_main_line()
    ensures main { (game : GameTree) → filter (λ (v : Visit). v.main) (all_visits game) ≡ main_visits game.start 0 (main_moves game) }
{}
