//! Moves made without a test.
ghost use Rattle.std.specs.Prelude.{◌≡◌};
ghost use Rattle.cell_core.specs.Board.{man_at};
ghost use Rattle.chess_laws.specs.Step.{after, effect_of};

use super::effect::Effect;
use super::making::change_as;
use super::next::effect_of;
use super::setup::Setup;
use cell_core::{Man, Move};

impl Setup {
    /// What kind of half-move a move is, by the man that stands on its first square. It says nothing of whether the move is
    /// legal.
    pub fn effect(&self, m: &Move) -> Effect
        ensures effect { result ≡ effect_of self.now m.now }
    {
        effect_of(self, m)
    }

    /// Makes a move of this kind of what stands on its first square, which is not tested. A position follows a legal move to the
    /// same setup, and finds besides whether it gives check.
    #[inline(always)]
    pub fn make(&mut self, m: &Move, effect: Effect, standing: Option<Man>)
        requires standing { standing ≡ man_at self.old.board m.now.from }
        ensures becomes { self.new ≡ after self.old m.now effect }
    {
        change_as(self, m, effect, standing);
    }
}
