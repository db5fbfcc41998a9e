//! Moves written in Standard Algebraic Notation.
ghost use Rattle.std.specs.Prelude.{◌≡◌, ◌↔◌, ℕ, ◌<◌, ◌≤◌, ◌+◌, ◌++◌, ◌∷◌, ◌||◌, ◌==◌, if◌then◌else◌, [], codes, length, IsTrue, IfSome, Some};
ghost use Rattle.std.specs.Bool.{OnTrue};
ghost use Rattle.std.specs.Option.{option_to_list};
ghost use Rattle.cell_core.specs.Board.{man_at};
ghost use Rattle.cell_core.specs.Man.{man};
ghost use Rattle.chess_laws.specs.Geometry.{file_of, rank_of};
ghost use Rattle.chess_laws.specs.Position.{Sound};
ghost use Rattle.chess_laws.specs.Step.{Legal, Step, is_capture, stepped};
ghost use Rattle.chess_text.specs.Letters.{capital_of};
ghost use Rattle.chess_text.specs.Ones.{Drops};
ghost use Rattle.chess_text.specs.Squares.{file_text, square_text};
ghost use Rattle.chess_text.specs.SanShape.{castling_text, null_text};
ghost use Rattle.chess_text.specs.SanReads.{SanReads};
ghost use Rattle.chess_text.specs.San.{San, GoingText, HasMove, IsRival, PieceText, SignText, capture_text, pawn_text, promotion_text};
ghost use Rattle.chess_text.specs.SanText.{san_text};
ghost use Rattle.chess_text.specs.SanWriting.{AreRivals, FrontText, RivalsBut, SignBehind, origin_by};

use super::letters::capital_of;
use super::ones::{lowest, without};
use super::squares::{file_letter, rank_digit};
use arrayvec::ArrayVec;
use cell_core::{Kind, Man, Move, Square};
use chess_laws::{Effect, Position, Setup, Wing};

// Which other men of its kind can legally go to a move's target: any, one on the file of its origin, one on the rank.
#[derive(Clone, Copy)]
pub struct Rivals {
    pub any: bool,
    pub on_file: bool,
    pub on_rank: bool,
}

// From a square to those beside it, counted from a1 over h8 back to a1.
const KING_STEPS: [u8; 8] = [1, 7, 8, 9, 55, 56, 57, 63];

/// Writes a legal move in Standard Algebraic Notation (PGN standard, 8.2.3). Castling is `O-O` and `O-O-O`, and the
/// null move `--`. Any other move is
///
/// - the letter of the man,
/// - as much of its origin as tells it from all others of its kind that can legally go to the target,
/// - `x` for a capture,
/// - the target,
/// - `=` and the letter of a promotion.
///
/// `+` for check or `#` for mate follows. `read_san` gives the move back.
pub fn write_san(p: &Position, m: Move) -> ArrayVec<u8, 8>
    requires legal { Legal p.now m }
    ensures text { San p.now m result.items }
    ensures exact { result.items ≡ san_text p.now m }
    ensures read_again { SanReads p.now result.items m }
{
    let mut next = *p;
    play_san(&mut next, &m)
}

/// Plays a legal move, and writes it in Standard Algebraic Notation as `write_san` does. The sign of check or mate is seen in
/// the position that the move leads to, so whoever goes on from there need not play the move once more.
pub fn play_san(p: &mut Position, m: &Move) -> ArrayVec<u8, 8>
    requires legal { Legal p.old m.now }
    ensures text { San p.old m.now result.items }
    ensures exact { result.items ≡ san_text p.old m.now }
    ensures read_again { SanReads p.old result.items m.now }
    ensures step { Step p.old m.now p.new }
    ensures becomes { p.new ≡ stepped p.old m.now }
{
    let effect = p.effect(m);
    let mut text = front_of(p, p.setup(), m, effect);
    p.play_as(m, effect);
    push_sign(&mut text, sign_behind(p, effect));
    text
}

// The text of a legal move before its sign.
fn front_of(p: &Position, setup: &Setup, m: &Move, effect: Effect) -> ArrayVec<u8, 8>
    requires same { setup.now ≡ p.now }
    requires sound { Sound p.now }
    ensures text { FrontText effect p.now m.now result.items }
    ensures short { length result.items ≤ 6 }
{
    match effect {
        Effect::Null => null_text(),
        Effect::Castle(wing) => castling_text(wing),
        Effect::Plain | Effect::Double | Effect::Passing => going_text(p, setup, m),
    }
}

// The null move.
fn null_text() -> ArrayVec<u8, 8>
    ensures text { result.items ≡ null_text }
    ensures short { length result.items ≤ 6 }
{
    let mut text = ArrayVec::new();
    append(&mut text, b"--");
    text
}

// Castling on the wing.
fn castling_text(wing: Wing) -> ArrayVec<u8, 8>
    ensures text { result.items ≡ castling_text wing }
    ensures short { length result.items ≤ 6 }
{
    let mut text = ArrayVec::new();
    match wing {
        Wing::KingSide => append(&mut text, b"O-O"),
        Wing::QueenSide => append(&mut text, b"O-O-O"),
    }
    text
}

// Adds bytes for which there is room.
fn append(text: &mut ArrayVec<u8, 8>, bytes: &[u8])
    requires room { length text.old.items + length bytes.now ≤ 8 }
    ensures text { text.new.items ≡ text.old.items ++ bytes.now }
{
    let _ = text.try_extend_from_slice(bytes);
}

// The sign of check or mate in the position that a half-move of this kind leads to, if there is one. The null move has none.
fn sign_behind(next: &Position, effect: Effect) -> Option<u8>
    ensures sign { SignBehind effect next.now (option_to_list result) }
{
    match effect {
        Effect::Null => None,
        Effect::Plain | Effect::Double | Effect::Passing | Effect::Castle(_) => sign_of(next),
    }
}

// The sign of check or mate in a position, if there is one.
fn sign_of(next: &Position) -> Option<u8>
    ensures sign { SignText next.now (option_to_list result) }
{
    if !next.in_check() {
        return None;
    }
    if has_answer(next) {
        return Some(b'+');
    }
    Some(b'#')
}

// Whether there is a legal move besides the null move. The king's own moves are tried first, since they answer most checks.
fn has_answer(p: &Position) -> bool
    ensures some { IsTrue result ↔ HasMove p.now }
{
    if king_has_move(p, &KING_STEPS) {
        return true;
    }
    p.has_move()
}

// Whether the king can go on by one of these numbers of squares.
fn king_has_move(p: &Position, steps: &[u8]) -> bool
    ensures some { OnTrue result (HasMove p.now) }
{
    let king = p.king(p.side());
    for step in steps {
        if can_go_on(p, king, *step) {
            return true;
        }
    }
    false
}

// Whether the man on this square can legally go so many squares on, counted from a1 over h8 back to a1.
fn can_go_on(p: &Position, from: Square, step: u8) -> bool
    ensures some { OnTrue result (HasMove p.now) }
{
    let to = Square::at((from.index() + step % 64) % 64);
    if to == from {
        return false;
    }
    let m = Move {
        from,
        to,
        promo: None,
    };
    p.is_legal(m)
}

// Adds the sign, if there is one.
fn push_sign(text: &mut ArrayVec<u8, 8>, sign: Option<u8>)
    requires room { length text.old.items < 8 }
    ensures text { text.new.items ≡ text.old.items ++ option_to_list sign }
{
    if let Some(sign) = sign {
        text.push(sign);
    }
}

// The text of a man that goes to its target.
fn going_text(p: &Position, setup: &Setup, m: &Move) -> ArrayVec<u8, 8>
    requires same { setup.now ≡ p.now }
    requires sound { Sound p.now }
    ensures text { GoingText (man_at p.now.board m.now.from) p.now m.now result.items }
    ensures short { length result.items ≤ 6 }
{
    let Some(man) = p.board().at(m.from) else {
        return ArrayVec::new();
    };
    match man.kind {
        Kind::Pawn => pawn_text(p, m),
        Kind::King => piece_text(p, setup, Kind::King, m),
        Kind::Queen => piece_text(p, setup, Kind::Queen, m),
        Kind::Rook => piece_text(p, setup, Kind::Rook, m),
        Kind::Bishop => piece_text(p, setup, Kind::Bishop, m),
        Kind::Knight => piece_text(p, setup, Kind::Knight, m),
    }
}

// The text of a pawn's move.
#[tactic(auto, using(std::proofs::Common::append_assoc), unfolding(crate::specs::San::pawn_text))]
fn pawn_text(p: &Position, m: &Move) -> ArrayVec<u8, 8>
    ensures text { result.items ≡ pawn_text p.now m.now }
    ensures short { length result.items ≤ 6 }
{
    let mut text = ArrayVec::new();
    push_pawn_capture(&mut text, p, m);
    push_square(&mut text, m.to);
    push_promotion(&mut text, m.promo);
    text
}

// Adds the file of a pawn that captures, and the sign of the capture.
fn push_pawn_capture(text: &mut ArrayVec<u8, 8>, p: &Position, m: &Move)
    requires room { length text.old.items ≤ 6 }
    ensures text { text.new.items ≡ text.old.items ++ (if is_capture p.now m.now then file_text (file_of m.now.from) ++ codes "x" else []) }
    ensures short { length text.new.items ≤ length text.old.items + 2 }
{
    if p.is_capture(m) {
        text.push(file_letter(m.from));
        text.push(b'x');
    }
}

// Adds what the pawn becomes.
fn push_promotion(text: &mut ArrayVec<u8, 8>, promo: Option<Kind>)
    requires room { length text.old.items ≤ 6 }
    ensures text { text.new.items ≡ text.old.items ++ promotion_text promo }
    ensures short { length text.new.items ≤ length text.old.items + 2 }
{
    if let Some(kind) = promo {
        text.push(b'=');
        text.push(capital_of(kind));
    }
}

// The text of the move of a man that is no pawn.
fn piece_text(p: &Position, setup: &Setup, kind: Kind, m: &Move) -> ArrayVec<u8, 8>
    requires same { setup.now ≡ p.now }
    requires sound { Sound p.now }
    ensures text { PieceText p.now kind m.now result.items }
    ensures short { length result.items ≤ 6 }
{
    let rivals = rivals_of(p, setup, kind, m);
    spelled(p, kind, m, rivals)
}

// The letter of the man, its origin as far as these other men want it, the sign of a capture and the target.
#[tactic(auto, using(std::proofs::Common::append_assoc))]
fn spelled(p: &Position, kind: Kind, m: &Move, rivals: Rivals) -> ArrayVec<u8, 8>
    ensures text { result.items ≡ capital_of kind ∷ (origin_by rivals m.now.from ++ (capture_text p.now m.now ++ square_text m.now.to)) }
    ensures short { length result.items ≤ 6 }
{
    let mut text = ArrayVec::new();
    text.push(capital_of(kind));
    push_origin(&mut text, m.from, rivals);
    push_capture(&mut text, p, m);
    push_square(&mut text, m.to);
    text
}

// Adds the sign of a capture.
fn push_capture(text: &mut ArrayVec<u8, 8>, p: &Position, m: &Move)
    requires room { length text.old.items < 8 }
    ensures text { text.new.items ≡ text.old.items ++ capture_text p.now m.now }
    ensures short { length text.new.items ≤ length text.old.items + 1 }
{
    if p.is_capture(m) {
        text.push(b'x');
    }
}

// Adds a square.
fn push_square(text: &mut ArrayVec<u8, 8>, s: Square)
    requires room { length text.old.items ≤ 6 }
    ensures text { text.new.items ≡ text.old.items ++ square_text s }
    ensures short { length text.new.items ≤ length text.old.items + 2 }
{
    let file = file_letter(s);
    let rank = rank_digit(s);
    text.push(file);
    text.push(rank);
}

// Adds as much of the origin as these other men want.
fn push_origin(text: &mut ArrayVec<u8, 8>, from: Square, rivals: Rivals)
    requires room { length text.old.items ≤ 6 }
    ensures text { text.new.items ≡ text.old.items ++ origin_by rivals from }
    ensures short { length text.new.items ≤ length text.old.items + 2 }
{
    if !rivals.any {
        return;
    }
    if !rivals.on_file {
        text.push(file_letter(from));
        return;
    }
    if !rivals.on_rank {
        text.push(rank_digit(from));
        return;
    }
    push_square(text, from);
}

const NO_RIVALS: Rivals = Rivals {
    any: false,
    on_file: false,
    on_rank: false,
};

// The other men of this kind that can legally go to the target: each man of the kind is tried.
fn rivals_of(p: &Position, setup: &Setup, kind: Kind, m: &Move) -> Rivals
    requires same { setup.now ≡ p.now }
    ensures found { AreRivals p.now kind m.now result }
{
    let mut seen = NO_RIVALS;
    let mut left = setup.board.of_man(setup.side, kind);
    'men: while left != 0 {
        let s = lowest(left);
        seen = with_square(seen, p, setup, kind, m, s);
        left = without(left, s);
    }
    seen
}

// These and the man on one more square, if it is one.
fn with_square(seen: Rivals, p: &Position, setup: &Setup, kind: Kind, m: &Move, s: Square) -> Rivals
    requires same { setup.now ≡ p.now }
    ensures tried { (left after : ℕ) → Drops s left after → RivalsBut p.now kind m.now left seen → RivalsBut p.now kind m.now after result }
{
    if !is_rival(p, setup, kind, m, s) {
        return seen;
    }
    Rivals {
        any: true,
        on_file: either(seen.on_file, is_same_file(s, m.from)),
        on_rank: either(seen.on_rank, is_same_rank(s, m.from)),
    }
}

// Whether two squares are on one file.
fn is_same_file(a: Square, b: Square) -> bool
    ensures { result ≡ (file_of a == file_of b) }
{
    a.index() % 8 == b.index() % 8
}

// Whether two squares are on one rank.
fn is_same_rank(a: Square, b: Square) -> bool
    ensures { result ≡ (rank_of a == rank_of b) }
{
    a.index() / 8 == b.index() / 8
}

// Whether one of the two holds.
fn either(a: bool, b: bool) -> bool
    ensures { result ≡ a || b }
{
    a || b
}

// Whether a man of this kind of the side to move stands on the square.
fn stands(p: &Setup, kind: Kind, s: Square) -> bool
    ensures stands { IsTrue result ↔ (man_at p.now.board s ≡ Some (man p.now.side kind)) }
{
    let man = Man {
        colour: p.side,
        kind,
    };
    p.board.at(s) == Some(man)
}

// Whether another man of this kind stands on the square and can legally go to the target.
fn is_rival(p: &Position, setup: &Setup, kind: Kind, m: &Move, s: Square) -> bool
    requires same { setup.now ≡ p.now }
    ensures rival { IsTrue result ↔ IsRival p.now kind m.now s }
{
    if !stands(setup, kind, s) {
        return false;
    }
    if s == m.from {
        return false;
    }
    p.is_legal(Move {
        from: s,
        to: m.to,
        promo: None,
    })
}
