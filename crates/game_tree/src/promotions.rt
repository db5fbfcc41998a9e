//! Whether a game has promotions, in any of its lines.
ghost use Rattle.std.specs.Prelude.{◌≡◌};
ghost use Rattle.game_tree.specs.Tree.{line_of, branches_of};
ghost use Rattle.game_tree.specs.Promotions.{line_any, branches_any, has_promotion, has_underpromotion};
ghost use Rattle.game_tree.specs.Sought.{is_sought};

use super::game::Game;
use super::node::{Branch, Node};
use cell_core::{Kind, Move};

/// Whether there is a promotion, and whether there is one to another man than a queen.
#[derive(Clone, Copy, Debug, Default, PartialEq, Eq)]
pub struct Promotions {
    pub any: bool,
    pub under: bool,
}

// What a walk over the lines looks for.
#[derive(Clone, Copy)]
enum Sought {
    Promotion,
    Underpromotion,
}

impl Game {
    /// Whether a move of the game is a promotion, in the main line or in a variation (FIDE Laws, Article 3.7.3.3).
    pub fn has_promotion(&self) -> bool
        ensures has { result ≡ has_promotion self.now }
    {
        line_has(self.line.as_slice(), Sought::Promotion)
    }

    /// Whether a move of the game is a promotion to another man than a queen, in the main line or in a variation.
    pub fn has_underpromotion(&self) -> bool
        ensures has { result ≡ has_underpromotion self.now }
    {
        line_has(self.line.as_slice(), Sought::Underpromotion)
    }

    /// Both at once. Most games have no promotion, and are gone through once.
    #[tactic(auto, using(crate::proofs::PromotionLemmas::none_under))]
    pub fn promotions(&self) -> Promotions
        ensures any { result.any ≡ has_promotion self.now }
        ensures under { result.under ≡ has_underpromotion self.now }
    {
        let any = self.has_promotion();
        Promotions {
            any,
            under: any && self.has_underpromotion(),
        }
    }
}

// Whether such a move is in the line or one of its variations.
#[cycle(promotions)]
fn line_has(line: &[Node], sought: Sought) -> bool
    ensures { result ≡ line_any (is_sought sought) (line_of line.now) }
{
    for node in line {
        if is_sought(&node.mv, sought) {
            return true;
        }
        if branches_have(node.variations.as_slice(), sought) {
            return true;
        }
    }
    false
}

// Whether such a move is in one of these variations.
#[cycle(promotions)]
fn branches_have(branches: &[Branch], sought: Sought) -> bool
    ensures { result ≡ branches_any (is_sought sought) (branches_of branches.now) }
{
    for branch in branches {
        if line_has(branch.line.as_slice(), sought) {
            return true;
        }
    }
    false
}

// Whether the move is what is sought.
fn is_sought(m: &Move, sought: Sought) -> bool
    ensures { result ≡ is_sought sought m.now }
{
    match sought {
        Sought::Promotion => m.promo.is_some(),
        Sought::Underpromotion => match m.promo {
            None => false,
            Some(kind) => kind != Kind::Queen,
        },
    }
}
