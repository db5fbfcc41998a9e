//! A law of the definitions.
ghost use Rattle.std.specs.Prelude.{◌≡◌, ◌≤◌, ℕ, List, Option, length};
ghost use Rattle.cell_core.specs.Packed.{Packed};
ghost use Rattle.game_filter.specs.Renumbering.{renumbered};
ghost use Rattle.shell_state.specs.Slots.Slot.{shows};
ghost use Rattle.shell_state.specs.State.{HasFilters, State};
ghost use Rattle.tree_live.specs.Watching.{all_changes, staying};
ghost use Rattle.view_commands.specs.Views.{changes_of, entries_of};

/// A law: how many rows of a tree differ between two states. They are at most one for each game whose hit goes and one
/// for each whose hit comes; a game that counts another hit counts as both. The later state has all games of the
/// earlier, or those that stay under new numbers.
pub fn changes_are_those_of_games()
    ensures grown { (s later : State) (board : Packed) → HasFilters s → HasFilters later → length s.shared.base.games ≤ length later.shared.base.games
        → changes_of s later (shows board) ≤ all_changes (entries_of s board) (entries_of later board) }
    ensures renumbered { (s later : State) (board : Packed) (to : List (Option ℕ)) → HasFilters s → HasFilters later → length s.shared.base.games ≤ length to
        → entries_of later board ≡ renumbered to (entries_of s board) → changes_of s later (shows board) ≤ all_changes (entries_of s board) (staying to (entries_of s board)) }
{}
