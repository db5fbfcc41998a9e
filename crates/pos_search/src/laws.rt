//! Laws of the definitions.
ghost use Rattle.std.specs.Prelude.{◌≡◌, ◌≤◌, ◌↔◌, ℕ, true, false, None, Some, Option, IsTrue, length};
ghost use Rattle.cell_core.specs.declared.step.Move.{Move};
ghost use Rattle.chess_laws.specs.Position.{Sound};
ghost use Rattle.chess_laws.specs.declared.setup.Setup.{Setup};
ghost use Rattle.game_tree.specs.Counts.{variations_of};
ghost use Rattle.game_tree.specs.Game.{GameTree};
ghost use Rattle.game_tree.specs.Legal.{IsLegalGame};
ghost use Rattle.game_tree.specs.Replay.{next_at, plies_of};
ghost use Rattle.pos_index.specs.Hits.{places_of};
ghost use Rattle.sig_index.specs.Signature.{IsSig};
ghost use Rattle.sig_index.specs.declared.pos_query.Mode.TheVariants.{Exact};
ghost use Rattle.sig_index.specs.declared.pos_query.PosQuery.{PosQuery};
ghost use Rattle.sig_index.specs.declared.signature.Sig.{Sig};
ghost use Rattle.pos_search.specs.Matching.{FirstPly, first_of, first_on_main, hit_of, hit_on_main, matches, matches_at};
ghost use Rattle.pos_search.specs.Passing.{passes};
ghost use Rattle.pos_search.specs.Searching.{hit_told, is_out};

/// A law: if `passes` is false of its signature, a legal game matches at no ply of its main line and has no first
/// place. If the query looks in variations, such a game has none, so that only games without variations are passed
/// over.
pub fn tests_are_sound()
    ensures sound { (game : GameTree) (sig : Sig) (query : PosQuery) (ply : ℕ) → Sound game.start → IsLegalGame game → IsSig game sig → ply ≤ plies_of game
        → passes sig query ≡ false → matches_at query game ply ≡ false }
    ensures first { (game : GameTree) (sig : Sig) (query : PosQuery) → Sound game.start → IsLegalGame game → IsSig game sig → passes sig query ≡ false → first_of query game ≡ None }
    ensures variations { (game : GameTree) (sig : Sig) (query : PosQuery) → IsSig game sig → passes sig query ≡ false → IsTrue query.vars → variations_of game ≡ 0 }
{}

/// A law: the ply that a search computes for a game is the first of its main line at which it matches. If there is none
/// and the query looks in variations, it is the ply of the first of their places that matches. The search computes none
/// if and only if the game matches nowhere. An exact search matches if and only if the board and the side to move are
/// those of the query.
pub fn first_plies_are_first()
    ensures first { (query : PosQuery) (game : GameTree) → FirstPly query game (first_of query game) }
    ensures exact { (query : PosQuery) (p : Setup) → query.mode ≡ Exact → (matches query p ≡ true) ↔ ((p.board ≡ query.board) × (p.side ≡ query.side)) }
{}

/// A law: what the places of a legal game up to a depth tell for a query is the game's hit, on its main line and within
/// the depth. For an exact query they tell it whenever the main line first matches within the depth. If they tell none and the game is out,
/// it has no hit.
pub fn index_tells_hits()
    ensures main { (query : PosQuery) (depth : ℕ) (game : GameTree) (hit : ℕ × Option Move) → length query.board ≡ 64 → Sound game.start → IsLegalGame game
        → hit_told query (places_of depth game) ≡ Some hit → (hit_on_main query game ≡ Some hit) × (hit.0 ≤ depth) }
    ensures hit { (query : PosQuery) (depth : ℕ) (game : GameTree) (hit : ℕ × Option Move) → length query.board ≡ 64 → Sound game.start → IsLegalGame game
        → hit_told query (places_of depth game) ≡ Some hit → hit_of query game ≡ Some hit }
    ensures decides { (query : PosQuery) (depth : ℕ) (game : GameTree) (ply : ℕ) → length query.board ≡ 64 → Sound game.start → IsLegalGame game → query.mode ≡ Exact
        → first_on_main query game ≡ Some ply → ply ≤ depth → hit_told query (places_of depth game) ≡ Some (ply, next_at game ply) }
    ensures out { (query : PosQuery) (depth : ℕ) (game : GameTree) (sig : Sig) → length query.board ≡ 64 → Sound game.start → IsLegalGame game → IsSig game sig
        → hit_told query (places_of depth game) ≡ None → is_out query (places_of depth game) sig ≡ true → hit_of query game ≡ None }
{}
