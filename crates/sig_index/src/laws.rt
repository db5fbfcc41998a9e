//! Laws of signatures, and of games whose records are held.
ghost use Rattle.std.specs.Prelude.{◌≡◌, ◌≤◌, ℕ, nat_eq, count_by, List, Option, Some};
ghost use Rattle.std.specs.Bool.{MatchBool};
ghost use Rattle.base_files.specs.declared.extent.Extent.{Extent};
ghost use Rattle.chess_laws.specs.Position.{Sound, start_setup};
ghost use Rattle.game_tree.specs.Game.{GameTree};
ghost use Rattle.game_tree.specs.Legal.{IsLegalGame};
ghost use Rattle.game_tree.specs.Replay.{plies_of};
ghost use Rattle.sig_index.specs.declared.signature.Sig.{Sig};
ghost use Rattle.sig_index.specs.Games.{HasChanged, Holds};
ghost use Rattle.sig_index.specs.Left.{left_from};
ghost use Rattle.sig_index.specs.Signature.{IsSig, left_of};

/// A law: no pawn leaves its own square twice. In a legal game from the initial position, each move of the main line
/// adds to the home values that left those of the pawns that stood at home before it and do not after it.
pub fn pawns_leave_once()
    ensures once { (game : GameTree) (value : ℕ) → count_by (nat_eq value) (left_of game) ≤ 1 }
    ensures each_move { (game : GameTree) → Sound game.start → IsLegalGame game → game.start ≡ start_setup → left_of game ≡ left_from game 0 (plies_of game) }
{}

/// A law: a game has one signature, and over a games file that holds the records of the games no record has changed.
pub fn held_records_stay()
    ensures one_signature { (game : GameTree) (a b : Sig) → IsSig game a → IsSig game b → a ≡ b }
    ensures unchanged { (games : List ℕ) (extents : List Extent) (sigs : List Sig) (list : List GameTree) (buffer : List ℕ) (game : ℕ) (kept : Sig)
        (found : Option Sig) → Holds games extents sigs list → HasChanged sigs extents (Some games) buffer game kept found → ⊥ }
{}

/// A law: a signature has the mark of an own start if and only if the game begins at another position than the initial
/// one.
pub fn own_starts_are_marked()
    ensures marked { (game : GameTree) (sig : Sig) → IsSig game sig → MatchBool sig.own_start (game.start ≡ start_setup → ⊥) (game.start ≡ start_setup) }
{}
