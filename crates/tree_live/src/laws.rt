//! Laws of the definitions.
ghost use Rattle.std.specs.Prelude.{◌≤◌, ℕ, List, Option, length};
ghost use Rattle.game_filter.specs.Renumbering.{renumbered};
ghost use Rattle.tree_rows.specs.Rows.{rows_of};
ghost use Rattle.tree_live.specs.declared.entry.Entry.{Entry};
ghost use Rattle.tree_live.specs.RowChanges.{rows_changed};
ghost use Rattle.tree_live.specs.Watching.{all_changes, hits_in, staying};

/// A law: between two states of the games no more rows change than changes of games are counted. The later state has
/// all games of the earlier, or those that stay of them under new numbers; then each hit that goes counts.
pub fn rows_change_with_games()
    ensures few { (before after : List Entry) → length before ≤ length after → rows_changed (rows_of (hits_in before)) (rows_of (hits_in after)) ≤ all_changes before after }
    ensures renumbered { (games : List Entry) (to : List (Option ℕ)) → length games ≤ length to → rows_changed (rows_of (hits_in games)) (rows_of (hits_in (renumbered to games))) ≤ all_changes games (staying to games) }
{}
