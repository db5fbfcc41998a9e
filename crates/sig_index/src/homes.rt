//! Which games a search of a position can leave unread, by the pawns that stand at home.
ghost use Rattle.std.specs.Prelude.{◌≡◌, ◌≤◌, ◌<◌, ◌*◌, ◌-◌, ◌/◌, ◌%◌, ◌^◌, ℕ, true, not, nat_eq, take, length};
ghost use Rattle.std.specs.List.{list_any};
ghost use Rattle.chess_laws.specs.Counts.{is_home};
ghost use Rattle.chess_laws.specs.Position.{Sound, start_setup};
ghost use Rattle.chess_laws.specs.Step.{Step};
ghost use Rattle.chess_laws.specs.declared.setup.Setup.{Setup};
ghost use Rattle.cell_core.specs.declared.step.Move.{Move};
ghost use Rattle.game_tree.specs.Game.{GameTree};
ghost use Rattle.game_tree.specs.Legal.{IsLegalGame};
ghost use Rattle.game_tree.specs.Replay.{plies_of, position_at};
ghost use Rattle.sig_index.specs.Homes.{IsHomeList, home_allows, home_set, is_all_but_first};
ghost use Rattle.sig_index.specs.Left.{leaving_between};
ghost use Rattle.sig_index.specs.Signature.{IsSig, left_of};
ghost use Rattle.sig_index.specs.declared.signature.Sig.{Sig as Signature};

use crate::brief::Brief;

/// Whether the pawns that stand at home can be those of a set at some ply of a game with this signature. Bit v of the
/// set stands for the home value v. The set can be theirs if it has all values but those of the first pawns that left,
/// and every set can be that of a game with an own start. A home list has at most 16 values, each below 16.
#[tactic(auto, unfolding(crate::specs::Homes::home_allows))]
pub fn home_allows(s: &Brief<'_>, set: u16) -> bool
    requires home { IsHomeList s.now.home }
    ensures allows { result ≡ home_allows s.now set }
{
    s.has_own_start() || is_all_but_first(s, set)
}

/// A law: no move takes two pawns off their own squares, and none brings one back. So the pawns at home at a ply of a
/// legal game from the initial position are all but the first of those that left. `home_allows` holds for them.
pub fn home_pawn_skipping_is_sound()
    ensures one_leaves { (p : Setup) (m : Move) (q : Setup) → Sound p → Step p m q → length (leaving_between p q) ≤ 1 }
    ensures none_returns { (p : Setup) (m : Move) (q : Setup) (value : ℕ) → Sound p → Step p m q → value < 16 → is_home q.board value ≡ true → is_home p.board value ≡ true }
    ensures prefix { (game : GameTree) (k : ℕ) → Sound game.start → IsLegalGame game → game.start ≡ start_setup → k ≤ plies_of game → (n : ℕ) × ((n ≤ length (left_of game)) × ((value : ℕ) → value < 16 → is_home (position_at game k).board value ≡ not (list_any (nat_eq value) (take n (left_of game))))) }
    ensures sound { (game : GameTree) (sig : Signature) (k : ℕ) → Sound game.start → IsLegalGame game → IsSig game sig → k ≤ plies_of game → home_allows sig (home_set (position_at game k).board) ≡ true }
{}

// Whether a set has all values but those of the first pawns that left, be that none of them, some or all. Once a pawn left that is in the
// set it has them no more.
fn is_all_but_first(s: &Brief<'_>, set: u16) -> bool
    requires home { IsHomeList s.now.home }
    ensures { result ≡ is_all_but_first (take s.now.home.count s.now.home.values) set }
{
    let word = s.home_word();
    let mut still = u16::MAX;
    for i in 0..s.home_count() {
        if still == set {
            return true;
        }
        let value = home_value(word, i);
        if (set >> value) % 2 == 1 {
            return false;
        }
        still &= !(1 << value);
    }
    still == set
}

// The home value at a place of a word of them.
#[inline(always)]
fn home_value(word: u64, i: u8) -> u8
    requires { i < 16 }
    ensures value { result ≡ word / 2 ^ (60 - 4 * i) % 16 }
    ensures small { result < 16 }
{
    ((word >> (60 - 4 * i)) % 16) as u8
}
