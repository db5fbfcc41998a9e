//! What is left of a side's men when the other side moves, without a board on which the move is made.
ghost use Rattle.std.specs.Prelude.{◌≡◌, ℕ, None, Some, length};
ghost use Rattle.cell_core.specs.Board.{Men, put};
ghost use Rattle.cell_core.specs.Man.{is_man, man, other};
ghost use Rattle.cell_core.specs.Sets.{set_of};
ghost use Rattle.cell_core.specs.declared.man.Colour.{Colour as TheColour};
ghost use Rattle.cell_core.specs.declared.man.Kind.{Kind as TheKind};
ghost use Rattle.chess_laws.specs.Position.{Sound};
ghost use Rattle.chess_laws.specs.Rays.{Leaves};
ghost use Rattle.chess_laws.specs.Step.{board_after, Case};

use super::castling::{rook_home, rook_target};
use super::effect::Effect;
use super::next::passed_square;
use super::setup::Setup;
use cell_core::{Board, Colour, Kind, Move, Square};

/// The squares of the men of one colour that are left of a board, and all squares on which a man stands then.
#[derive(Clone, Copy)]
pub struct Left {
    men: u64,
    occupied: u64,
}

impl Left {
    /// The men of this colour on the board itself.
    #[inline(always)]
    pub fn of(board: &Board, colour: Colour) -> Left
        ensures { Leaves board.now colour result.men result.occupied board.now }
    {
        Left {
            men: board.of_colour(colour),
            occupied: board.occupied(),
        }
    }

    /// The men of the side that is not to move, after an allowed move.
    #[inline(always)]
    pub fn after(p: &Setup, m: &Move, effect: Effect) -> Left
        requires sound { Sound p.now }
        requires allowed { Case p.now m.now effect }
        ensures { Leaves p.now.board (other p.now.side) result.men result.occupied (board_after p.now m.now effect) }
    {
        let before = Left::of(&p.board, p.side.other());
        match effect {
            Effect::Null => before,
            Effect::Plain => before.moved(m),
            Effect::Double => before.moved(m),
            Effect::Passing => before.moved(m).emptied(passed_square(m)),
            Effect::Castle(wing) => before
                .moved(m)
                .emptied(rook_home(p.side, wing))
                .entered(rook_target(p.side, wing)),
        }
    }

    // A man of the other colour has gone to the move's target.
    #[inline(always)]
    fn moved(self, m: &Move) -> Left
        ensures { (men new : Men) (c : TheColour) (k : TheKind) → length new ≡ 64 → Leaves men (other c) self.men self.occupied new → Leaves men (other c) result.men result.occupied (put (put new m.now.from None) m.now.to (Some (man c k))) }
    {
        self.emptied(m.from).entered(m.to)
    }

    /// What stands on the square is gone.
    #[inline(always)]
    pub fn emptied(self, s: Square) -> Left
        ensures { (men new : Men) (c : TheColour) → length new ≡ 64 → Leaves men c self.men self.occupied new → Leaves men c result.men result.occupied (put new s None) }
    {
        let others = !(1u64 << s.index());
        Left {
            men: self.men & others,
            occupied: self.occupied & others,
        }
    }

    // A man of the other colour has come to the square.
    #[inline(always)]
    fn entered(self, s: Square) -> Left
        ensures { (men new : Men) (c : TheColour) (k : TheKind) → length new ≡ 64 → Leaves men (other c) self.men self.occupied new → Leaves men (other c) result.men result.occupied (put new s (Some (man c k))) }
    {
        let place = 1u64 << s.index();
        Left {
            men: self.men & !place,
            occupied: self.occupied | place,
        }
    }

    /// The squares on which a man stands.
    #[inline(always)]
    pub fn occupied(&self) -> u64
        ensures { result ≡ self.now.occupied }
    {
        self.occupied
    }

    /// The squares of the men of this kind, if these are left of the board.
    #[inline(always)]
    pub fn of_kind(&self, board: &Board, kind: Kind) -> u64
        ensures { (new : Men) (c : TheColour) → Leaves board.now c self.now.men self.now.occupied new → result ≡ set_of (is_man c kind) new }
    {
        self.men & board.of_kind(kind)
    }
}
