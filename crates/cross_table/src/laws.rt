//! Laws of the definitions.
ghost use Rattle.std.specs.Prelude.{◌≡◌, ◌*◌, ℕ, List, count_by};
ghost use Rattle.std.specs.List.{sum_by};
ghost use Rattle.game_tree.specs.declared.head.Head.{Head};
ghost use Rattle.cross_table.specs.Crosstable.{CrossLine, Pairing, crosstable, event_games, has_result};

/// A law: the half points of a crosstable sum to twice the event's games with a known result.
pub fn half_points_are_shared()
    ensures shared { (event : List ℕ) (heads : List Head) → sum_by (λ (line : CrossLine). line.half_points) (crosstable event heads).lines
        ≡ 2 * count_by (λ (game : Pairing). has_result game.result) (event_games event heads) }
{}
