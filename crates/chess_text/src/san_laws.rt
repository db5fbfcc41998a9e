//! Laws of moves as text.
ghost use Rattle.std.specs.Prelude.{◌≡◌, List, ℕ};
ghost use Rattle.cell_core.specs.declared.step.Move.{Move};
ghost use Rattle.chess_laws.specs.declared.setup.Setup.{Setup};
ghost use Rattle.chess_text.specs.declared.shape.Shape.{Shape as ShapeValue};
ghost use Rattle.chess_text.specs.San.{San};
ghost use Rattle.chess_text.specs.SanShape.{HasShape};

/// A law: a move has one text.
pub fn moves_have_one_text()
    ensures one { (p : Setup) (m : Move) (a b : List ℕ) → San p m a → San p m b → a ≡ b }
{}

/// A law: a text has at most one shape.
pub fn texts_have_one_shape()
    ensures one { (text : List ℕ) (a b : ShapeValue) → HasShape text a → HasShape text b → a ≡ b }
{}
