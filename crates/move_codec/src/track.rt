//! A line whose moves are known to be legal.
ghost use Rattle.std.specs.Prelude.{◌≡◌, ◌<◌, ◌++◌, ◌∷◌, ℕ, List, Some, Ok, false, length};
ghost use Rattle.cell_core.specs.declared.man.Man.{Man as ManValue};
ghost use Rattle.chess_laws.specs.Position.{Sound};
ghost use Rattle.chess_laws.specs.Step.{Legal, Step};
ghost use Rattle.move_codec.specs.Numbers.{numbers_after};
ghost use Rattle.move_codec.specs.Packed.{Decodes, encoding, encoding_by, is_mark, value_of};

use super::numbered::packed;
use super::numbers::{Numbers, capture_square};
use arrayvec::ArrayVec;
use cell_core::{Man, Move};
use chess_laws::Setup;
use std::marker::Model;

/// A position with the numbers of its men, as `Numbered`, along moves that are known to be legal. No move is tested, and whether
/// one gives check is not looked for.
#[derive(Drop)]
pub struct Track {
    pub(crate) setup: Setup,
    pub(crate) numbers: Numbers,
}

impl Model for Track {
    ghost use Rattle.chess_laws.specs.Position.{Sound};
    ghost use Rattle.move_codec.specs.Numbers.{Numbered as NumberedSetup, AreNumbers};

    ghost Value = { NumberedSetup };

    ghost view = { λ t. record { position = t.setup; numbers = t.numbers } };

    ghost invariant = { λ t. Sound t.setup × AreNumbers t.setup.board t.numbers };
}

impl Track {
    /// The position, which keeps the rules.
    pub fn setup(&self) -> &Setup
        ensures setup { result.now ≡ self.now.position }
        ensures sound { Sound self.now.position }
    {
        &self.setup
    }

    /// A copy, as at the start of a variation. It takes no memory beyond itself.
    pub fn copy(&self) -> Track
        ensures same { result ≡ self.now }
    {
        Track {
            setup: self.setup,
            numbers: self.numbers.copy(),
        }
    }

    /// Plays a legal move, and gives its bytes, which are those of `Numbered::encode_move`.
    pub fn pack(&mut self, m: &Move) -> ArrayVec<u8, 2>
        requires legal { Legal self.old.position m.now }
        ensures bytes { result.items ≡ encoding self.old m.now }
        ensures decodes { (rest : List ℕ) → Decodes self.old (result.items ++ rest) (Ok (m.now, length result.items)) }
        ensures apart { (byte : ℕ) × ((later : List ℕ) × ((result.items ≡ byte ∷ later) × (is_mark byte ≡ false))) }
        ensures step { Step self.old.position m.now self.new.position }
        ensures numbers { self.new.numbers ≡ numbers_after self.old.position m.now self.old.numbers }
    {
        let side = self.setup.side;
        let number = self.numbers.of(side).number_of(m.from);
        let standing = self.setup.board.at(m.from);
        let bytes = bytes_of(number, standing, m);
        let effect = self.setup.effect(m);
        let taken = self.setup.board.at(capture_square(m, effect)).is_some();
        self.setup.make(m, effect, standing);
        self.numbers.follow_by(side, m, effect, number, taken);
        bytes
    }
}

/// The bytes of a move of what stands on its first square, with this number.
fn bytes_of(number: usize, standing: Option<Man>, m: &Move) -> ArrayVec<u8, 2>
    requires number { number < 16 }
    requires value { (man : ManValue) → standing ≡ Some man → value_of man.kind m.now < 16 }
    ensures { result.items ≡ encoding_by standing number m.now }
{
    match standing {
        None => ArrayVec::new(),
        Some(man) => packed(number, man.kind, m),
    }
}
