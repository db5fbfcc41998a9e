//! Laws of the definitions.
ghost use Rattle.std.specs.Prelude.{◌≡◌, ◌↔◌, ◌∷◌, ◌++◌, List, Option, true, false};
ghost use Rattle.cell_core.specs.declared.man.Colour.{Colour};
ghost use Rattle.cell_core.specs.declared.step.Move.{Move};
ghost use Rattle.cell_core.specs.Board.{Men};
ghost use Rattle.chess_laws.specs.declared.setup.Setup.{Setup};
ghost use Rattle.chess_laws.specs.Position.{Sound};
ghost use Rattle.chess_laws.specs.Step.{Legal};
ghost use Rattle.chess_text.specs.SanText.{san_text};
ghost use Rattle.tree_rows.specs.declared.hit.GameHit.{GameHit};
ghost use Rattle.tree_rows.specs.declared.row.Row.{Row};
ghost use Rattle.tree_rows.specs.Keys.{same_key};
ghost use Rattle.tree_rows.specs.Rows.{KeysDiffer, row_at, rows_of};
ghost use Rattle.tree_rows.specs.MoveText.{needed};
ghost use Rattle.tree_rows.specs.TreeText.{tree_text};

/// A law: keys are the same if and only if they are one move, or `end` both times.
pub fn keys_are_told_apart()
    ensures same { (a b : Option Move) → (same_key a b ≡ true) ↔ (a ≡ b) }
{}

/// A law: a hit changes the row of its own key alone.
pub fn a_hit_changes_its_own_row_alone()
    ensures others { (before behind : List GameHit) (hit : GameHit) (key : Option Move) → same_key hit.next key ≡ false → row_at key (rows_of (before ++ hit ∷ behind)) ≡ row_at key (rows_of (before ++ behind)) }
{}

/// A law: the rows of hits have different keys.
pub fn rows_have_different_keys()
    ensures differ { (hits : List GameHit) → KeysDiffer (rows_of hits) }
{}

/// A law: rows of which no two have one key, and which for each key are those of some hits, have the text of the rows of these hits, in
/// whatever order they stand.
pub fn rows_of_hits_have_one_text()
    ensures text { (men : Men) (side : Colour) (rows : List Row) (hits : List GameHit) → KeysDiffer rows → ((key : Option Move) → row_at key rows ≡ row_at key (rows_of hits)) → tree_text men side rows ≡ tree_text men side (rows_of hits) }
{}

/// A law: the text of a row is that of its move in every position of its board and side to move in which the move is
/// legal (PGN standard, 8.2.3). The text of a row is the SAN of its move in the position whose only right and en
/// passant square are those that the move needs.
pub fn texts_of_moves_are_shared()
    ensures shared { (p : Setup) (m : Move) → Sound p → Legal p m → san_text (needed p.board p.side m) m ≡ san_text p m }
{}
