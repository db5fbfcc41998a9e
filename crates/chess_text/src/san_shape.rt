//! The shape of a move's text.
ghost use Rattle.std.specs.Prelude.{◌≡◌, ◌==◌, IfSome, ◌<◌};
ghost use Rattle.chess_text.specs.SanReading.{aimed, is_form, form_named, shape_named};
ghost use Rattle.chess_text.specs.SanParts.{begins, going_parts};

use super::san_parts::{
    are_signs, take_capture, take_file, take_kind, take_promotion, take_rank, take_square,
};
use super::shape::{Going, Shape};
use cell_core::{Kind, Square};
use chess_laws::Wing;

// The shape of the text, if it has one.
#[tactic(auto, using(crate::proofs::PartLaws::shape_of_going, crate::proofs::PartLaws::shape_of_form))]
pub fn shape_of(text: &[u8]) -> Option<Shape>
    ensures exact { result ≡ shape_named text.now }
{
    match going_of(text) {
        Some(going) => Some(Shape::Goes(going)),
        None => form_of(text),
    }
}

// The man that goes to a square, if the text says one.
#[tactic(auto, unfolding(crate::specs::SanParts::going_parts))]
fn going_of(text: &[u8]) -> Option<Going>
    ensures exact { result ≡ going_parts text.now }
{
    let (kind, text) = take_kind(text);
    let (file, text) = take_file(text);
    let (rank, text) = take_rank(text);
    let (takes, text) = take_capture(text);
    let (target, text) = take_square(text);
    let (promo, text) = take_promotion(text);
    if are_signs(text) {
        aim(kind, file, rank, takes, target, promo)
    } else {
        None
    }
}

// The man that goes, where the file and the rank may be those of its target.
fn aim(
    kind: Kind,
    file: Option<u8>,
    rank: Option<u8>,
    takes: bool,
    target: Option<Square>,
    promo: Option<Kind>,
) -> Option<Going>
    requires file { IfSome file (λ file. file < 8) }
    requires rank { IfSome rank (λ rank. rank < 8) }
    ensures exact { result ≡ aimed kind file rank takes target promo }
{
    if let Some(target) = target {
        return Some(Going {
            kind,
            file,
            rank,
            target,
            promo,
        });
    }
    if takes {
        return None;
    }
    let target = Square::at(8 * rank? + file?);
    Some(Going {
        kind,
        file: None,
        rank: None,
        target,
        promo,
    })
}

// Castling or the null move, if the text says one.
#[tactic(auto, unfolding(crate::specs::SanReading::form_named))]
fn form_of(text: &[u8]) -> Option<Shape>
    ensures exact { result ≡ form_named text.now }
{
    if is_form(b"O-O", text) {
        return Some(Shape::Castle(Wing::KingSide));
    }
    if is_form(b"0-0", text) {
        return Some(Shape::Castle(Wing::KingSide));
    }
    if is_form(b"O-O-O", text) {
        return Some(Shape::Castle(Wing::QueenSide));
    }
    if is_form(b"0-0-0", text) {
        return Some(Shape::Castle(Wing::QueenSide));
    }
    if is_form(b"--", text) {
        return Some(Shape::Null);
    }
    None
}

// Whether the text is this form, and then only signs.
fn is_form(form: &[u8], text: &[u8]) -> bool
    ensures exact { result ≡ is_form form.now text.now }
{
    let mut rest = text;
    for byte in form {
        if !begins_with(rest, *byte) {
            return false;
        }
        rest = &rest[1..];
    }
    are_signs(rest)
}

// Whether the text begins with this byte.
fn begins_with(text: &[u8], byte: u8) -> bool
    ensures { result ≡ begins (λ first. first == byte) text.now }
{
    match text {
        [first, ..] => *first == byte,
        [] => false,
    }
}
