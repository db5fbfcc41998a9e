//! Positions that keep the rules, and the moves from them.
ghost use Rattle.std.specs.Prelude.{◌≡◌, ◌↔◌, ℕ, ◌<◌, true, IsTrue, IsBitSet, IfOk, IfErr, Some};
ghost use Rattle.cell_core.specs.Board.{man_at};
ghost use Rattle.cell_core.specs.Man.{man};
ghost use Rattle.cell_core.specs.declared.man.Kind.TheVariants.{King};
ghost use Rattle.chess_laws.specs.Attacks.{Attacks, IsInCheck};
ghost use Rattle.chess_laws.specs.Counts.{counts_of, is_home};
ghost use Rattle.chess_laws.specs.Position.{Sound, Breaks, setup_of};

use super::attack::attacks;
use super::castling::king_home;
use super::census::{home_set, only_king};
use super::counts::Counts;
use super::effect::Effect;
use super::fault::PlaceFault;
use super::legal::{is_legal, is_legal_as, is_legal_calm, king_after};
use super::making::make;
use super::next::{effect_as, effect_of};
use super::rules::{
    has_few_men, has_fit_en_passant, has_pawns_inside, rests_in_check, standing_rights, start_board,
};
use super::setup::{Rights, Setup};
use cell_core::{Board, Colour, Kind, Man, Move, Square};
use std::marker::Model;

/// A position that keeps the rules:
///
/// - Each side has one king and at most 16 men.
/// - No pawn stands on the first or the last rank.
/// - The side that is not to move is not in check.
/// - A castling right is left only if its king and rook stand at home.
/// - An en passant square is on the sixth rank with White to move, and on the third with Black to move.
#[derive(Clone, Copy, Debug, PartialEq, Eq)]
pub struct Position {
    inner: Setup,
    white_king: Square,
    black_king: Square,
    checked: bool,
    counts: Counts,
}

impl Model for Position {
    ghost use Rattle.cell_core.specs.declared.man.Colour.TheVariants.{White, Black};
    ghost use Rattle.chess_laws.specs.declared.setup.Setup.{Setup};
    ghost use Rattle.chess_laws.specs.Counts.{counts_of};
    ghost use Rattle.chess_laws.specs.Keeps.{Keeps, in_check, inverse_Keeps};
    ghost use Rattle.chess_laws.specs.Position.{king_square};

    ghost Value = { Setup };

    ghost view = { λ p. p.inner };

    ghost invariant = { λ p. Keeps p.inner p.white_king p.black_king p.checked p.counts };

    ghost inverse = { λ p. record { inner = p; white_king = king_square p.board White; black_king = king_square p.board Black; checked = in_check p; counts = counts_of p.board } };
}

impl Position {
    ghost use Rattle.chess_laws.specs.LegalNow.{attacks_now, in_check_now};
    ghost use Rattle.chess_laws.specs.Position.{Sound, Breaks, setup_of, start_setup, is_start, bits_of};

    /// The initial position: White to move, all four rights, no en passant square.
    pub fn start() -> Position
        ensures start { result ≡ start_setup }
    {
        let board = start_board();
        Position {
            inner: Setup {
                board,
                side: Colour::White,
                rights: Rights {
                    white_king_side: true,
                    white_queen_side: true,
                    black_king_side: true,
                    black_queen_side: true,
                },
                en_passant: None,
            },
            white_king: king_home(Colour::White),
            black_king: king_home(Colour::Black),
            checked: false,
            counts: Counts::start(),
        }
    }

    /// Whether it is the initial position.
    pub fn is_start(&self) -> bool
        ensures start { IsTrue result ↔ (self.now ≡ start_setup) }
        ensures decided { result ≡ is_start self.now }
    {
        self.setup().is_same(Position::start().setup())
    }

    /// Whether two positions are the same.
    pub fn is_same(&self, other: &Position) -> bool
        ensures same { IsTrue result ↔ (self.now ≡ other.now) }
    {
        self.setup().is_same(other.setup())
    }

    /// The position of a board, a side to move, castling rights (bits 0 to 3 for White's king's side and queen's side
    /// and Black's; other bits are ignored) and an en passant square. A right without its king and rook at home is
    /// dropped.
    ///
    /// The fault is the first that applies, in the order of `PlaceFault`.
    pub fn try_new(
        board: Board,
        side: Colour,
        rights: u8,
        en_passant: Option<Square>,
    ) -> Result<Position, PlaceFault>
        ensures ok { IfOk result (λ p. p ≡ setup_of board side rights en_passant) }
        ensures sound { IfOk result (λ p. Sound p) }
        ensures fault { IfErr result (λ fault. Breaks (setup_of board side rights en_passant) fault) }
    {
        place(&board, side, rights, en_passant)
    }

    /// The board.
    pub fn board(&self) -> &Board
        ensures board { result.now ≡ self.now.board }
    {
        &self.inner.board
    }

    /// The side to move.
    pub fn side(&self) -> Colour
        ensures side { result ≡ self.now.side }
    {
        self.inner.side
    }

    /// The castling rights, as bits 0 to 3 for White's king's side and queen's side and Black's.
    pub fn rights(&self) -> u8
        ensures bits { result ≡ bits_of self.now.rights }
    {
        self.inner.rights.bits()
    }

    /// The en passant square: the one that a pawn's double step has just crossed.
    pub fn en_passant(&self) -> Option<Square>
        ensures square { result ≡ self.now.en_passant }
    {
        self.inner.en_passant
    }

    /// The position as a plain setup, which keeps the rules.
    pub fn setup(&self) -> &Setup
        ensures setup { result.now ≡ self.now }
        ensures sound { Sound self.now }
    {
        &self.inner
    }

    /// The square of a side's king.
    pub fn king(&self, colour: Colour) -> Square
        ensures stands { man_at self.now.board result ≡ Some (man colour King) }
        ensures only { (s : ℕ) → man_at self.now.board s ≡ Some (man colour King) → s ≡ result }
    {
        match colour {
            Colour::White => self.white_king,
            Colour::Black => self.black_king,
        }
    }

    /// Whether some man of the colour `by` attacks the square.
    pub fn attacked(&self, by: Colour, s: Square) -> bool
        ensures attacks { IsTrue result ↔ Attacks self.now.board by s }
        ensures decided { result ≡ attacks_now self.now.board by s }
    {
        attacks(&self.inner.board, by, s)
    }

    /// Whether the side to move is in check.
    pub fn in_check(&self) -> bool
        ensures check { IsTrue result ↔ IsInCheck self.now.board self.now.side }
        ensures decided { result ≡ in_check_now self.now.board self.now.side }
    {
        self.checked
    }

    /// How many queens, rooks, bishops, knights and pawns White has, and then Black.
    pub fn counts(&self) -> [u8; 10]
        ensures counts { result ≡ counts_of self.now.board }
    {
        self.counts.numbers()
    }

    /// The same ten counts, in the form in which counts are compared.
    pub fn census(&self) -> &Counts
        ensures counts { result.now ≡ counts_of self.now.board }
    {
        &self.counts
    }

    /// The home values of the pawns that stand on their own squares, as bits: 15 down to 8 for a2 to h2, and 7 down to 0
    /// for a7 to h7.
    pub fn home_set(&self) -> u16
        ensures bits { (v : ℕ) → v < 16 → (IsBitSet result v ↔ IsTrue (is_home self.now.board v)) }
    {
        home_set(&self.inner.board)
    }
}

/// The position of a board that is tested rule by rule.
fn place(
    board: &Board,
    side: Colour,
    rights: u8,
    en_passant: Option<Square>,
) -> Result<Position, PlaceFault>
    ensures ok { IfOk result (λ p. p ≡ setup_of board.now side rights en_passant) }
    ensures sound { IfOk result (λ p. Sound p) }
    ensures fault { IfErr result (λ fault. Breaks (setup_of board.now side rights en_passant) fault) }
{
    let Some(white_king) = only_king(board, Colour::White) else {
        return Err(PlaceFault::Kings);
    };
    let Some(black_king) = only_king(board, Colour::Black) else {
        return Err(PlaceFault::Kings);
    };
    if !has_pawns_inside(board) {
        return Err(PlaceFault::Pawns);
    }
    if !has_few_men(board) {
        return Err(PlaceFault::TooMany);
    }
    if rests_in_check(board, side, white_king, black_king) {
        return Err(PlaceFault::InCheck);
    }
    if !has_fit_en_passant(side, &en_passant) {
        return Err(PlaceFault::EnPassant);
    }
    let rights = standing_rights(board, rights);
    let checked = rests_in_check(board, side.other(), white_king, black_king);
    Ok(Position {
        inner: Setup {
            board: *board,
            side,
            rights,
            en_passant,
        },
        white_king,
        black_king,
        checked,
        counts: Counts::of(board),
    })
}

impl Position {
    ghost use Rattle.chess_laws.specs.declared.setup.Setup.{Setup};
    ghost use Rattle.chess_laws.specs.LegalNow.{legal_now};
    ghost use Rattle.chess_laws.specs.LegalTests.{is_calm};
    ghost use Rattle.chess_laws.specs.Step.{after, effect_of, is_capture, Legal, Step};
    ghost use Rattle.std.specs.Bool.{OnTrue, OnFalse};

    /// Whether the move is legal. The null move is legal where the side to move is not in check.
    pub fn is_legal(&self, m: Move) -> bool
        ensures legal { IsTrue result ↔ Legal self.now m }
        ensures decided { result ≡ legal_now self.now m }
    {
        is_legal(self.setup(), self.king(self.side()), self.in_check(), &m)
    }

    /// What kind of half-move a move is, by the man that stands on its first square. It says nothing of whether the move is
    /// legal.
    pub fn effect(&self, m: &Move) -> Effect
        ensures effect { result ≡ effect_of self.now m.now }
    {
        effect_of(&self.inner, m)
    }

    /// Whether a move captures a man, on its target or en passant. It says nothing of whether the move is legal.
    #[tactic(auto, unfolding(crate::specs::Step::is_capture))]
    pub fn is_capture(&self, m: &Move) -> bool
        ensures capture { result ≡ is_capture self.now m.now }
    {
        match effect_of(&self.inner, m) {
            Effect::Plain | Effect::Double => self.inner.board.at(m.to).is_some(),
            Effect::Passing => true,
            Effect::Castle(_) | Effect::Null => false,
        }
    }

    /// What kind of half-move a move of the mover's man of this kind is, which stands on its first square: `effect` where the
    /// man is known.
    #[inline(always)]
    pub fn effect_as(&self, kind: Kind, m: &Move) -> Effect
        requires stands { man_at self.now.board m.now.from ≡ Some (man self.now.side kind) }
        ensures effect { result ≡ effect_of self.now m.now }
    {
        effect_as(&self.inner, kind, m)
    }

    /// Plays the move where it is legal, and answers whether it is. A position whose move is not legal stays as it was.
    pub fn advance(&mut self, m: &Move) -> bool
        ensures legal { IsTrue result ↔ Legal self.old m.now }
        ensures step { OnTrue result (Step self.old m.now self.new) }
        ensures kept { OnFalse result (self.new ≡ self.old) }
    {
        self.advance_by(m, effect_of(self.setup(), m))
    }

    /// `advance` of a move of the mover's man of this kind, which stands on its first square, and whose kind of half-move is
    /// known. With the two given as constants it is compiled for them.
    #[inline(always)]
    pub fn advance_as(&mut self, kind: Kind, m: &Move, effect: Effect) -> bool
        requires stands { man_at self.old.board m.now.from ≡ Some (man self.old.side kind) }
        requires effect { effect ≡ effect_of self.old m.now }
        ensures legal { IsTrue result ↔ Legal self.old m.now }
        ensures step { OnTrue result (Step self.old m.now self.new) }
        ensures kept { OnFalse result (self.new ≡ self.old) }
    {
        match effect {
            Effect::Plain => self.advance_calm(kind, m, Effect::Plain),
            Effect::Double => self.advance_calm(kind, m, Effect::Double),
            Effect::Passing | Effect::Castle(_) | Effect::Null => self.advance_by(m, effect),
        }
    }

    // `advance` of a plain move or a double step.
    #[inline(always)]
    fn advance_calm(&mut self, kind: Kind, m: &Move, effect: Effect) -> bool
        requires stands { man_at self.old.board m.now.from ≡ Some (man self.old.side kind) }
        requires effect { effect ≡ effect_of self.old m.now }
        requires calm { is_calm effect ≡ true }
        ensures legal { IsTrue result ↔ Legal self.old m.now }
        ensures step { OnTrue result (Step self.old m.now self.new) }
        ensures kept { OnFalse result (self.new ≡ self.old) }
    {
        let side = self.side();
        let legal = is_legal_calm(
            self.setup(),
            self.king(side),
            self.in_check(),
            kind,
            m,
            effect,
        );
        if legal {
            self.follow(m, effect, Some(Man { colour: side, kind }));
        }
        legal
    }

    // `advance` of a move whose kind of half-move is known.
    fn advance_by(&mut self, m: &Move, effect: Effect) -> bool
        requires effect { effect ≡ effect_of self.old m.now }
        ensures legal { IsTrue result ↔ Legal self.old m.now }
        ensures step { OnTrue result (Step self.old m.now self.new) }
        ensures kept { OnFalse result (self.new ≡ self.old) }
    {
        let standing = self.inner.board.at(m.from);
        self.advance_of(m, effect, standing)
    }

    // The same, of what stands on its first square.
    #[inline(never)]
    fn advance_of(&mut self, m: &Move, effect: Effect, standing: Option<Man>) -> bool
        requires effect { effect ≡ effect_of self.old m.now }
        requires standing { standing ≡ man_at self.old.board m.now.from }
        ensures legal { IsTrue result ↔ Legal self.old m.now }
        ensures step { OnTrue result (Step self.old m.now self.new) }
        ensures kept { OnFalse result (self.new ≡ self.old) }
    {
        let legal = is_legal_as(
            self.setup(),
            self.king(self.side()),
            self.in_check(),
            m,
            effect,
        );
        if legal {
            self.follow(m, effect, standing);
        }
        legal
    }

    /// Plays a legal move. What it leads to is the one position that it can lead to.
    pub fn play(&mut self, m: Move)
        requires legal { Legal self.old m }
        ensures step { Step self.old m self.new }
        ensures only { (q : Setup) → Step self.old m q → q ≡ self.new }
    {
        let effect = effect_of(self.setup(), &m);
        self.play_as(&m, effect);
    }

    /// `play` of a move whose kind of half-move is known.
    pub fn play_as(&mut self, m: &Move, effect: Effect)
        requires legal { Legal self.old m.now }
        requires effect { effect ≡ effect_of self.old m.now }
        ensures step { Step self.old m.now self.new }
        ensures only { (q : Setup) → Step self.old m.now q → q ≡ self.new }
    {
        let standing = self.inner.board.at(m.from);
        self.follow(m, effect, standing);
    }

    // Plays a legal move of this kind, of what stands on its first square.
    #[inline(always)]
    fn follow(&mut self, m: &Move, effect: Effect, standing: Option<Man>)
        requires legal { Legal self.old m.now }
        requires effect { effect ≡ effect_of self.old m.now }
        requires standing { standing ≡ man_at self.old.board m.now.from }
        ensures becomes { self.new ≡ after self.old m.now effect }
    {
        match self.inner.side {
            Colour::White => {
                self.checked = make(
                    &mut self.inner,
                    &mut self.counts,
                    m,
                    effect,
                    standing,
                    self.black_king,
                );
                self.white_king = king_after(self.white_king, m);
            }
            Colour::Black => {
                self.checked = make(
                    &mut self.inner,
                    &mut self.counts,
                    m,
                    effect,
                    standing,
                    self.white_king,
                );
                self.black_king = king_after(self.black_king, m);
            }
        }
    }
}
