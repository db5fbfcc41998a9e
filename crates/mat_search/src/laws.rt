//! Laws of the definitions.
ghost use Rattle.std.specs.Prelude.{◌≡◌, ◌≤◌, ℕ, false};
ghost use Rattle.chess_laws.specs.Position.{Sound};
ghost use Rattle.game_tree.specs.Game.{GameTree};
ghost use Rattle.game_tree.specs.Legal.{IsLegalGame};
ghost use Rattle.sig_index.specs.Signature.{IsSig};
ghost use Rattle.sig_index.specs.declared.mat_query.MatQuery.{MatQuery};
ghost use Rattle.sig_index.specs.declared.signature.Sig.{Sig};
ghost use Rattle.mat_search.specs.Matching.{FirstPly, first_of, matches_at};
ghost use Rattle.mat_search.specs.Passing.{passes};

/// A law: if `passes` is false of its signature, a legal game matches at no ply.
pub fn tests_are_sound()
    ensures sound { (game : GameTree) (sig : Sig) (query : MatQuery) (ply : ℕ) → 1 ≤ query.streak → Sound game.start → IsLegalGame game → IsSig game sig
        → passes sig query ≡ false → matches_at query game ply ≡ false }
{}

/// A law: the ply that a search computes for a game is the first of its main line at which it matches. The search
/// computes none if and only if the game matches nowhere.
pub fn first_plies_are_first()
    ensures first { (query : MatQuery) (game : GameTree) → FirstPly query game (first_of query game) }
{}
