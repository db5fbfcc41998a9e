//! The token at the beginning of a text.
ghost use Rattle.std.specs.Prelude.{◌≡◌, ◌≤◌, ◌==◌, not, length, drop, option_map, IfSome};
ghost use Rattle.std.specs.Str.Lines.{strip_carriage_return};
ghost use Rattle.std.specs.Char.{is_ascii_digit};
ghost use Rattle.std.specs.Option.{unwrap_or};
ghost use Rattle.game_tree.specs.Decimal.{decimal_read};
ghost use Rattle.pgn_read.specs.Bytes.{behind, has_zero, is_glyph, is_move_byte};
ghost use Rattle.pgn_read.specs.Clear.{IsClear};
ghost use Rattle.pgn_read.specs.Said.{said};
ghost use Rattle.pgn_read.specs.Token as token;
ghost use Rattle.pgn_read.specs.Lexing.{lexed, by_kind, comment_of, brace_from, suffix_of, run_from, number_from, digit_from};

use crate::clear::Clear;
use crate::run::{
    Run, begins, has_zero, has_zero_behind, is_glyph, is_move_byte, split_run, split_run_behind,
};
use crate::tag_text::tag_from;
use crate::token::{Lexed, Token};
use game_tree::{Outcome, read_decimal};

/// The token at the beginning of the text, which was searched so far, and what stands behind it.
#[tactic(auto, unfolding(crate::specs::Lexing::lexed))]
pub(crate) fn lexed(text: &[u8], clear: Clear) -> Lexed<'_>
    requires clear { IsClear clear text.now }
    ensures token { said result.token ≡ (lexed text.now).token }
    ensures rest { result.rest.now ≡ (lexed text.now).rest }
{
    let [byte, rest @ ..] = text else {
        return Lexed {
            token: Token::TheEnd,
            rest: text,
        };
    };
    match *byte {
        b'[' => tag_from(rest),
        b'{' => brace_from(rest, clear.behind(1)),
        b';' => line_from(rest),
        b'$' => nag_from(rest),
        b'(' => Lexed {
            token: Token::Opens,
            rest,
        },
        b')' => Lexed {
            token: Token::Closes,
            rest,
        },
        b'*' => Lexed {
            token: Token::Ending(Outcome::Unknown),
            rest,
        },
        b'.' => number_from(text),
        byte => lexed_by_kind(byte, text, rest),
    }
}

// A token whose first byte is one of many.
#[tactic(auto, unfolding(crate::specs::Lexing::lexed))]
fn lexed_by_kind<'a>(byte: u8, text: &'a [u8], rest: &'a [u8]) -> Lexed<'a>
    ensures token { said result.token ≡ (by_kind byte text.now rest.now).token }
    ensures rest { result.rest.now ≡ (by_kind byte text.now rest.now).rest }
{
    if is_glyph(byte) {
        return suffix_from(text);
    }
    if byte.is_ascii_digit() {
        return digit_from(text);
    }
    if is_move_byte(byte) {
        return move_from(text);
    }
    Lexed {
        token: Token::Bad,
        rest,
    }
}

fn comment_of(text: &[u8], zeroed: bool) -> Token<'_>
    requires zero { zeroed ≡ has_zero text.now }
    ensures { said result ≡ comment_of text.now }
{
    if zeroed {
        Token::Bad
    } else {
        Token::Comment(text)
    }
}

fn line_comment(text: &[u8]) -> Token<'_>
    ensures { said result ≡ comment_of text.now }
{
    comment_of(text, has_zero(text))
}

// A comment in braces, from behind the opening one on.
fn brace_from(text: &[u8], clear: Clear) -> Lexed<'_>
    requires clear { IsClear clear text.now }
    ensures token { said result.token ≡ (brace_from text.now).token }
    ensures rest { result.rest.now ≡ (brace_from text.now).rest }
{
    let (text, rest) = split_run_behind(Run::ToBrace, clear.braces, text);
    match rest {
        [_, rest @ ..] => Lexed {
            token: comment_of(text, has_zero_behind(clear.zeros.min(text.len()), text)),
            rest,
        },
        [] => Lexed {
            token: Token::OpenComment,
            rest,
        },
    }
}

// A comment to the end of its line, from behind the semicolon on.
fn line_from(text: &[u8]) -> Lexed<'_>
    ensures token { said result.token ≡ (run_from (λ byte. not (byte == 10)) (λ line. comment_of (strip_carriage_return line)) text.now).token }
    ensures rest { result.rest.now ≡ behind (λ byte. not (byte == 10)) text.now }
{
    let (text, rest) = split_run(Run::ToFeed, text);
    Lexed {
        token: line_comment(without_return(text)),
        rest,
    }
}

// The text without a last carriage return.
fn without_return(text: &[u8]) -> &[u8]
    ensures { result.now ≡ strip_carriage_return text.now }
{
    match text {
        [rest @ .., b'\r'] => rest,
        _ => text,
    }
}

// A NAG, from behind its sign on.
fn nag_from(text: &[u8]) -> Lexed<'_>
    ensures token { said result.token ≡ (run_from is_ascii_digit (λ digits. unwrap_or (option_map token.nag (decimal_read 255 digits)) token.bad) text.now).token }
    ensures rest { result.rest.now ≡ behind is_ascii_digit text.now }
{
    let (digits, rest) = split_run(Run::Digits, text);
    Lexed {
        token: nag_of(read_decimal(digits, 255)),
        rest,
    }
}

fn nag_of(number: Option<u64>) -> Token<'static>
    requires { IfSome number (λ n. n ≤ 255) }
    ensures { said result ≡ unwrap_or (option_map token.nag number) token.bad }
{
    match number {
        Some(n) => Token::Nag(n as u8),
        None => Token::Bad,
    }
}

// A suffix.
fn suffix_from(text: &[u8]) -> Lexed<'_>
    ensures token { said result.token ≡ (run_from is_glyph suffix_of text.now).token }
    ensures rest { result.rest.now ≡ behind is_glyph text.now }
{
    let (glyphs, rest) = split_run(Run::Glyphs, text);
    Lexed {
        token: suffix_of(glyphs),
        rest,
    }
}

// The NAG that a suffix stands for.
#[tactic(auto, unfolding(crate::specs::Lexing::suffix_of))]
fn suffix_of(glyphs: &[u8]) -> Token<'static>
    ensures { said result ≡ suffix_of glyphs.now }
{
    if glyphs == b"!".as_slice() {
        return Token::Nag(1);
    }
    if glyphs == b"?".as_slice() {
        return Token::Nag(2);
    }
    if glyphs == b"!!".as_slice() {
        return Token::Nag(3);
    }
    if glyphs == b"??".as_slice() {
        return Token::Nag(4);
    }
    if glyphs == b"!?".as_slice() {
        return Token::Nag(5);
    }
    if glyphs == b"?!".as_slice() {
        return Token::Nag(6);
    }
    Token::Bad
}

// The text of a move.
fn move_from(text: &[u8]) -> Lexed<'_>
    ensures token { said result.token ≡ (run_from is_move_byte token.move text.now).token }
    ensures rest { result.rest.now ≡ behind is_move_byte text.now }
{
    let (text, rest) = split_run(Run::Move, text);
    Lexed {
        token: Token::Move(text),
        rest,
    }
}

// A number with its dots, or dots alone.
fn number_from(text: &[u8]) -> Lexed<'_>
    ensures token { said result.token ≡ (number_from text.now).token }
    ensures rest { result.rest.now ≡ (number_from text.now).rest }
{
    let (_, rest) = split_run(Run::Digits, text);
    let (_, rest) = split_run(Run::Dots, rest);
    Lexed {
        token: Token::Number,
        rest,
    }
}

// What begins with a digit: an end mark, castling in digits, or a number.
#[tactic(auto, unfolding(crate::specs::Lexing::digit_from))]
fn digit_from(text: &[u8]) -> Lexed<'_>
    ensures token { said result.token ≡ (digit_from text.now).token }
    ensures rest { result.rest.now ≡ (digit_from text.now).rest }
{
    if begins(b"1-0", text) {
        return ending(Outcome::White, 3, text);
    }
    if begins(b"0-1", text) {
        return ending(Outcome::Black, 3, text);
    }
    if begins(b"1/2-1/2", text) {
        return ending(Outcome::Draw, 7, text);
    }
    if begins(b"1/2", text) {
        return ending(Outcome::Draw, 3, text);
    }
    if begins(b"0-0", text) {
        return move_from(text);
    }
    number_from(text)
}

// An end mark of so many bytes.
fn ending(outcome: Outcome, size: usize, text: &[u8]) -> Lexed<'_>
    requires { size ≤ length text.now }
    ensures token { said result.token ≡ said (Token.Ending outcome) }
    ensures rest { result.rest.now ≡ drop size text.now }
{
    Lexed {
        token: Token::Ending(outcome),
        rest: text.split_at(size).1,
    }
}
