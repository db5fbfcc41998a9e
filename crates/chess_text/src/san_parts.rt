//! The parts of a move's text, from the left.
ghost use Rattle.std.specs.Prelude.{◌≡◌, ◌==◌, IfSome, ◌<◌, unwrap_or};
ghost use Rattle.std.specs.List.{list_all};
ghost use Rattle.cell_core.specs.declared.man.Kind.TheVariants.{Pawn};
ghost use Rattle.chess_text.specs.SanReading.{promotion_named, piece_named, file_named, rank_named, is_sign};
ghost use Rattle.chess_text.specs.SanParts.{is_capture_sign, front, behind, begins, passed, square_front, behind_square, promotion_front, behind_promotion};

use cell_core::{Kind, Square};

// The kind that the letter names if a pawn may become it.
#[tactic(auto, unfolding(crate::specs::SanReading::promotion_named))]
fn promotion_of(letter: u8) -> Option<Kind>
    ensures named { result ≡ promotion_named letter }
{
    match letter {
        b'Q' => Some(Kind::Queen),
        b'R' => Some(Kind::Rook),
        b'B' => Some(Kind::Bishop),
        b'N' => Some(Kind::Knight),
        _ => None,
    }
}

// The kind that the letter names, which is no pawn.
#[tactic(auto, unfolding(crate::specs::SanReading::piece_named))]
fn piece_of(letter: u8) -> Option<Kind>
    ensures named { result ≡ piece_named letter }
{
    if letter == b'K' {
        Some(Kind::King)
    } else {
        promotion_of(letter)
    }
}

// The file that the letter names, counted from 0.
#[tactic(auto, unfolding(crate::specs::SanReading::file_named))]
fn file_of(byte: u8) -> Option<u8>
    ensures named { result ≡ file_named byte }
    ensures on_board { IfSome result (λ file. file < 8) }
{
    if b'a' <= byte && byte <= b'h' {
        Some(byte - b'a')
    } else {
        None
    }
}

// The rank that the digit names, counted from 0.
#[tactic(auto, unfolding(crate::specs::SanReading::rank_named))]
fn rank_of(byte: u8) -> Option<u8>
    ensures named { result ≡ rank_named byte }
    ensures on_board { IfSome result (λ rank. rank < 8) }
{
    if b'1' <= byte && byte <= b'8' {
        Some(byte - b'1')
    } else {
        None
    }
}

// The kind of the man that moves, and what stands behind its letter.
pub fn take_kind(text: &[u8]) -> (Kind, &[u8])
    ensures kind { result.0 ≡ unwrap_or (front piece_named text.now) Pawn }
    ensures rest { result.1.now ≡ behind piece_named text.now }
{
    if let [byte, rest @ ..] = text {
        if let Some(kind) = piece_of(*byte) {
            return (kind, rest);
        }
    }
    (Kind::Pawn, text)
}

// The file that the text begins with, and what stands behind it.
pub fn take_file(text: &[u8]) -> (Option<u8>, &[u8])
    ensures file { result.0 ≡ front file_named text.now }
    ensures on_board { IfSome result.0 (λ file. file < 8) }
    ensures rest { result.1.now ≡ behind file_named text.now }
{
    if let [byte, rest @ ..] = text {
        if let Some(file) = file_of(*byte) {
            return (Some(file), rest);
        }
    }
    (None, text)
}

// The rank that the text begins with, and what stands behind it.
pub fn take_rank(text: &[u8]) -> (Option<u8>, &[u8])
    ensures rank { result.0 ≡ front rank_named text.now }
    ensures on_board { IfSome result.0 (λ rank. rank < 8) }
    ensures rest { result.1.now ≡ behind rank_named text.now }
{
    if let [byte, rest @ ..] = text {
        if let Some(rank) = rank_of(*byte) {
            return (Some(rank), rest);
        }
    }
    (None, text)
}

// Whether the text begins with the sign of a capture, and what stands behind it.
pub fn take_capture(text: &[u8]) -> (bool, &[u8])
    ensures takes { result.0 ≡ begins is_capture_sign text.now }
    ensures rest { result.1.now ≡ passed is_capture_sign text.now }
{
    if let [byte, rest @ ..] = text {
        if *byte == b'x' || *byte == b':' {
            return (true, rest);
        }
    }
    (false, text)
}

// The square that the text begins with, and what stands behind it.
#[tactic(auto, unfolding(crate::specs::SanParts::square_front, crate::specs::SanParts::behind_square))]
pub fn take_square(text: &[u8]) -> (Option<Square>, &[u8])
    ensures square { result.0 ≡ square_front text.now }
    ensures rest { result.1.now ≡ behind_square text.now }
{
    if let [first, second, rest @ ..] = text {
        if let Some(file) = file_of(*first) {
            if let Some(rank) = rank_of(*second) {
                return (Some(Square::at(8 * rank + file)), rest);
            }
        }
    }
    (None, text)
}

// The text behind its sign of a promotion, if it begins with one.
fn pass_equals(text: &[u8]) -> &[u8]
    ensures rest { result.now ≡ passed (λ byte. byte == 61) text.now }
{
    match text {
        [b'=', rest @ ..] => rest,
        _ => text,
    }
}

// The promotion that the text begins with, and what stands behind it.
#[tactic(auto, unfolding(crate::specs::SanParts::promotion_front, crate::specs::SanParts::behind_promotion))]
pub fn take_promotion(text: &[u8]) -> (Option<Kind>, &[u8])
    ensures promo { result.0 ≡ promotion_front text.now }
    ensures rest { result.1.now ≡ behind_promotion text.now }
{
    if let [byte, rest @ ..] = pass_equals(text) {
        if let Some(kind) = promotion_of(*byte) {
            return (Some(kind), rest);
        }
    }
    (None, text)
}

// Whether every byte is a sign of check or mate.
pub fn are_signs(text: &[u8]) -> bool
    ensures { result ≡ list_all is_sign text.now }
{
    text.iter().all(|byte| *byte == b'+' || *byte == b'#')
}
