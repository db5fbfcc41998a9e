//! A position with the numbers of its men: packed moves decoded, played and encoded.
ghost use Rattle.std.specs.Prelude.{◌≡◌, ◌↔◌, ℕ, ◌+◌, ◌*◌, ◌<◌, ◌≤◌, false, List, ◌∷◌, ◌++◌, Ok, IsTrue, IfOk, IfErr, Some, length, slice_get, slice_index_or, ◌/◌, ◌%◌};
ghost use Rattle.std.specs.Bool.{OnTrue, OnFalse};
ghost use Rattle.cell_core.specs.Board.{man_at};
ghost use Rattle.cell_core.specs.Man.{man};
ghost use Rattle.chess_laws.specs.Position.{start_setup};
ghost use Rattle.chess_laws.specs.Step.{Legal, Step};
ghost use Rattle.move_codec.specs.Advance.{Advances, IsFirst};
ghost use Rattle.move_codec.specs.Numbers.{numbers_after, squares_of, standard_numbers, text_numbers};
ghost use Rattle.move_codec.specs.Packed.{Decodes, HasHighSecond, decoded, diagonal_move, encoding, is_mark, named, named_value, rest_of, to_square, value_of};

use super::fault::MoveFault;
use super::numbers::{Numbers, capture_square};
use super::targets::{
    diagonal_square, king_square, knight_square, on_diagonal, on_line, pawn_square, promotion,
};
use super::track::Track;
use super::values::{is_line, value_of};
use arrayvec::ArrayVec;
use cell_core::{Colour, Kind, Move, Square};
use chess_laws::Position;
use std::marker::Model;

/// A position with the numbers of its men. Contracts see the position and the numbered squares of both sides, which are
/// exactly the squares of its men.
#[derive(Drop)]
pub struct Numbered {
    position: Position,
    numbers: Numbers,
}

impl Model for Numbered {
    ghost use Rattle.move_codec.specs.Numbers.{Numbered as NumberedSetup, AreNumbers};

    ghost Value = { NumberedSetup };

    ghost view = { λ n. record { position = n.position; numbers = n.numbers } };

    ghost invariant = { λ n. AreNumbers n.position.board n.numbers };
}

impl Numbered {
    /// The initial position with the numbers of the standard start.
    pub fn standard() -> Numbered
        ensures position { result.position ≡ start_setup }
        ensures numbers { result.numbers ≡ standard_numbers }
    {
        Numbered {
            position: Position::start(),
            numbers: Numbers::standard(),
        }
    }

    /// A position with the numbers that its men have from a FEN.
    pub fn from_start(position: Position) -> Numbered
        ensures position { result.position ≡ position }
        ensures numbers { result.numbers ≡ text_numbers position.board }
    {
        let numbers = Numbers::in_text(&position.setup().board);
        Numbered { position, numbers }
    }

    /// The position.
    pub fn position(&self) -> &Position
        ensures position { result.now ≡ self.now.position }
    {
        &self.position
    }

    /// The numbers of the men.
    pub fn numbers(&self) -> &Numbers
        ensures numbers { result.now ≡ self.now.numbers }
    {
        &self.numbers
    }

    /// The legal move that the first bytes name, and how many of them it takes, one or two; or the first fault. Bytes
    /// after the move are not looked at.
    pub fn decode_move(&self, bytes: &[u8]) -> Result<(Move, u8), MoveFault>
        ensures decodes { Decodes self.now bytes.now result }
        ensures exact { result ≡ decoded self.now bytes.now }
        ensures used { IfOk result (λ decoded. (0 < decoded.1) × ((decoded.1 ≤ 2) × (decoded.1 ≤ length bytes.now))) }
        ensures second { IfOk result (λ decoded. HasHighSecond bytes.now decoded.1) }
    {
        self.decode(bytes)
    }

    /// `decode_move` by what the bytes name and whether it is legal.
    #[tactic(auto, unfolding(crate::specs::Packed::decoded))]
    fn decode(&self, bytes: &[u8]) -> Result<(Move, u8), MoveFault>
        ensures { result ≡ decoded self.now bytes.now }
    {
        let (m, used) = self.named(bytes)?;
        if self.position.is_legal(Move {
            from: m.from,
            to: m.to,
            promo: m.promo,
        }) {
            Ok((m, used))
        } else {
            Err(MoveFault::Illegal)
        }
    }

    /// Plays a legal move. The men keep their numbers, and the last man of the other side takes that of a captured one.
    pub fn play(&mut self, m: Move)
        requires legal { Legal self.old.position m }
        ensures step { Step self.old.position m self.new.position }
        ensures numbers { self.new.numbers ≡ numbers_after self.old.position m self.old.numbers }
    {
        self.follow(&m);
    }

    /// Plays the legal move that the first bytes name, in place, and gives what `decode_move` does. After a fault nothing
    /// has changed. It is compiled into each loop that calls it.
    #[inline(always)]
    pub fn advance(&mut self, bytes: &[u8]) -> Result<(Move, u8), MoveFault>
        ensures decodes { Decodes self.old bytes.now result }
        ensures exact { result ≡ decoded self.old bytes.now }
        ensures used { IfOk result (λ decoded. (0 < decoded.1) × ((decoded.1 ≤ 2) × (decoded.1 ≤ length bytes.now))) }
        ensures second { IfOk result (λ decoded. HasHighSecond bytes.now decoded.1) }
        ensures step { IfOk result (λ decoded. Step self.old.position decoded.0 self.new.position) }
        ensures numbers { IfOk result (λ decoded. self.new.numbers ≡ numbers_after self.old.position decoded.0 self.old.numbers) }
        ensures kept { IfErr result (λ _. self.new ≡ self.old) }
    {
        self.advance_first(bytes)
    }

    /// `advance`, by the man with the number of the first byte.
    #[inline(always)]
    fn advance_first(&mut self, bytes: &[u8]) -> Result<(Move, u8), MoveFault>
        ensures advances { Advances self.old bytes.now result self.new }
    {
        let [byte, rest @ ..] = bytes else {
            return Err(MoveFault::Short);
        };
        let side = self.position.side();
        let Some(from) = self.numbers.of(side).get(*byte / 16) else {
            return Err(MoveFault::NoMan);
        };
        let Some(man) = self.position.board().at(from) else {
            return Err(MoveFault::NoMan);
        };
        self.advance_by(man.kind, from, bytes, rest)
    }

    /// `advance` of a man of this kind: the code is compiled for each side apart, so that the side is told once.
    #[inline(always)]
    fn advance_by(
        &mut self,
        kind: Kind,
        from: Square,
        bytes: &[u8],
        rest: &[u8],
    ) -> Result<(Move, u8), MoveFault>
        requires first { IsFirst self.old kind from bytes.now rest.now }
        ensures advances { Advances self.old bytes.now result self.new }
    {
        match self.position.side() {
            Colour::White => self.advance_kind(Colour::White, kind, from, bytes, rest),
            Colour::Black => self.advance_kind(Colour::Black, kind, from, bytes, rest),
        }
    }

    /// The same, for a side that is a constant: the code is compiled for each kind apart too.
    #[inline(always)]
    fn advance_kind(
        &mut self,
        side: Colour,
        kind: Kind,
        from: Square,
        bytes: &[u8],
        rest: &[u8],
    ) -> Result<(Move, u8), MoveFault>
        requires side { side ≡ self.old.position.side }
        requires first { IsFirst self.old kind from bytes.now rest.now }
        ensures advances { Advances self.old bytes.now result self.new }
    {
        match kind {
            Kind::King => self.advance_man(side, Kind::King, from, bytes, rest),
            Kind::Queen => self.advance_man(side, Kind::Queen, from, bytes, rest),
            Kind::Rook => self.advance_man(side, Kind::Rook, from, bytes, rest),
            Kind::Bishop => self.advance_man(side, Kind::Bishop, from, bytes, rest),
            Kind::Knight => self.advance_man(side, Kind::Knight, from, bytes, rest),
            Kind::Pawn => self.advance_man(side, Kind::Pawn, from, bytes, rest),
        }
    }

    /// The same, for a side and a kind that are constants.
    #[inline(always)]
    fn advance_man(
        &mut self,
        side: Colour,
        kind: Kind,
        from: Square,
        bytes: &[u8],
        rest: &[u8],
    ) -> Result<(Move, u8), MoveFault>
        requires side { side ≡ self.old.position.side }
        requires first { IsFirst self.old kind from bytes.now rest.now }
        ensures advances { Advances self.old bytes.now result self.new }
    {
        let (m, used) = self.named_by(side, kind, from, bytes, rest)?;
        if self.follow_legal(kind, &m, first_byte(bytes) / 16) {
            Ok((m, used))
        } else {
            Err(MoveFault::Illegal)
        }
    }

    /// `named`, of the man of this side and kind on this square.
    #[inline(always)]
    fn named_by(
        &self,
        side: Colour,
        kind: Kind,
        from: Square,
        bytes: &[u8],
        rest: &[u8],
    ) -> Result<(Move, u8), MoveFault>
        requires side { side ≡ self.now.position.side }
        requires named { named self.now bytes.now ≡ named_value kind self.now.position.side from (slice_index_or bytes.now 0 0 % 16) rest.now }
        ensures { result ≡ named self.now bytes.now }
    {
        named_value(kind, side, from, first_byte(bytes) % 16, rest)
    }

    /// Plays a move of the man of this kind with this number where it is legal, and answers whether it is.
    #[inline(always)]
    fn follow_legal(&mut self, kind: Kind, m: &Move, number: u8) -> bool
        requires stands { man_at self.old.position.board m.now.from ≡ Some (man self.old.position.side kind) }
        requires number { slice_get (squares_of self.old.position.side self.old.numbers) number ≡ Some m.now.from }
        ensures legal { IsTrue result ↔ Legal self.old.position m.now }
        ensures step { OnTrue result (Step self.old.position m.now self.new.position) }
        ensures numbers { OnTrue result (self.new.numbers ≡ numbers_after self.old.position m.now self.old.numbers) }
        ensures kept { OnFalse result (self.new ≡ self.old) }
    {
        let mover = self.position.setup().side;
        let effect = self.position.effect_as(kind, m);
        let taken = self
            .position
            .board()
            .at(capture_square(m, effect))
            .is_some();
        let legal = self.position.advance_as(kind, m, effect);
        if legal {
            self.numbers
                .follow_by(mover, m, effect, number as usize, taken);
        }
        legal
    }

    /// `play` of a lent move.
    fn follow(&mut self, m: &Move)
        requires legal { Legal self.old.position m.now }
        ensures step { Step self.old.position m.now self.new.position }
        ensures numbers { self.new.numbers ≡ numbers_after self.old.position m.now self.old.numbers }
    {
        let side = self.position.setup().side;
        let effect = self.position.effect(m);
        self.position.play_as(m, effect);
        self.numbers.follow(side, m, effect);
    }

    /// A copy, as at the start of a variation. It takes no memory beyond itself.
    pub fn copy(&self) -> Numbered
        ensures same { result ≡ self.now }
    {
        Numbered {
            position: self.position,
            numbers: self.numbers.copy(),
        }
    }

    /// The same, for a line whose moves are known to be legal.
    pub fn track(&self) -> Track
        ensures same { result ≡ self.now }
    {
        Track {
            setup: *self.position.setup(),
            numbers: self.numbers.copy(),
        }
    }

    /// The bytes of a legal move: two of a queen's diagonal move, one of any other. They decode to the move, whatever
    /// follows them. They never begin with a byte from 11 to 15: a king's values end at 10, and its number is always 0.
    pub fn encode_move(&self, m: Move) -> ArrayVec<u8, 2>
        requires { Legal self.now.position m }
        ensures bytes { result.items ≡ encoding self.now m }
        ensures decodes { (rest : List ℕ) → Decodes self.now (result.items ++ rest) (Ok (m, length result.items)) }
        ensures apart { (byte : ℕ) × ((later : List ℕ) × ((result.items ≡ byte ∷ later) × (is_mark byte ≡ false))) }
    {
        self.track().pack(&m)
    }

    /// The move that the first bytes name and how many they are, or why they name none: legality apart.
    fn named(&self, bytes: &[u8]) -> Result<(Move, u8), MoveFault>
        ensures { result ≡ named self.now bytes.now }
    {
        let [byte, rest @ ..] = bytes else {
            return Err(MoveFault::Short);
        };
        let side = self.position.side();
        let Some(from) = self.numbers.of(side).get(*byte / 16) else {
            return Err(MoveFault::NoMan);
        };
        let Some(man) = self.position.board().at(from) else {
            return Err(MoveFault::NoMan);
        };
        named_value(man.kind, side, from, *byte % 16, rest)
    }
}

/// The first byte, or 0 if there is none.
#[inline(always)]
fn first_byte(bytes: &[u8]) -> u8
    ensures byte { result ≡ slice_index_or bytes.now 0 0 }
{
    match bytes {
        [byte, ..] => *byte,
        [] => 0,
    }
}

/// The bytes of a move of the man with this number and kind.
#[tactic(auto, unfolding(crate::specs::Packed::rest_of))]
pub(crate) fn packed(number: usize, kind: Kind, m: &Move) -> ArrayVec<u8, 2>
    requires number { number < 16 }
    requires value { value_of kind m.now < 16 }
    ensures { result.items ≡ (16 * number + value_of kind m.now) ∷ rest_of kind m.now }
{
    let mut bytes = ArrayVec::new();
    bytes.push(16 * number as u8 + value_of(kind, m));
    if kind == Kind::Queen && !is_line(m) {
        bytes.push(64 + m.to.index());
    }
    bytes
}

/// The move of a man of this kind and side, by its value and the bytes after it.
#[inline(always)]
#[tactic(auto, unfolding(crate::specs::Packed::named_value))]
fn named_value(
    kind: Kind,
    side: Colour,
    from: Square,
    value: u8,
    rest: &[u8],
) -> Result<(Move, u8), MoveFault>
    requires { value < 16 }
    ensures { result ≡ named_value kind side from value rest.now }
{
    match kind {
        Kind::King => to_square(from, None, 1, king_square(from, value)),
        Kind::Queen => {
            if value == from.index() % 8 {
                diagonal_move(from, rest)
            } else {
                to_square(from, None, 1, on_line(from, value))
            }
        }
        Kind::Rook => to_square(from, None, 1, on_line(from, value)),
        Kind::Bishop => to_square(from, None, 1, on_diagonal(from, value)),
        Kind::Knight => to_square(from, None, 1, knight_square(from, value)),
        Kind::Pawn => to_square(from, promotion(value), 1, pawn_square(side, from, value)),
    }
}

/// A queen's diagonal move, by the bytes after its first.
#[inline(always)]
fn diagonal_move(from: Square, rest: &[u8]) -> Result<(Move, u8), MoveFault>
    ensures { result ≡ diagonal_move from rest.now }
{
    match rest {
        [] => Err(MoveFault::Short),
        [byte, ..] => to_square(from, None, 2, diagonal_square(from, *byte)),
    }
}

/// A move to the square that a value names, with the number of its bytes.
#[inline(always)]
fn to_square(
    from: Square,
    promo: Option<Kind>,
    bytes: u8,
    to: Option<Square>,
) -> Result<(Move, u8), MoveFault>
    ensures { result ≡ to_square from promo bytes to }
{
    match to {
        None => Err(MoveFault::Value),
        Some(to) => Ok((Move { from, to, promo }, bytes)),
    }
}
