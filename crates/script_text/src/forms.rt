//! The forms of arguments: what a word stands for.
ghost use Rattle.std.specs.Prelude.{◌≡◌, ◌≤◌, ◌<◌, IfSome, ◌==◌, ◌||◌, length, not};
ghost use Rattle.std.specs.List.{list_all, position_from};
ghost use Rattle.std.specs.Option.{option_map};
ghost use Rattle.std.specs.Bool.{OnTrue};
ghost use Rattle.std.specs.Char.{is_ascii_alphanumeric};
ghost use Rattle.chess_text.specs.Filling.{board_named};
ghost use Rattle.cell_core.specs.Text.{IsZeroFree};
ghost use Rattle.script_text.specs.Forms.{side, op, search_kind, mode, switch, vars, answer, mark_bit, short_word, filter_name, name_text, body_end};

use cell_core::{Board, Colour};
use chess_text::read_board;
use game_filter::Op;
use game_tree::mark_letters;
use sig_index::Mode;

/// The board of a placement, the first field of a FEN.
pub(crate) fn board(word: &[u8]) -> Option<Board>
    ensures { result ≡ board_named word.now }
{
    match read_board(word) {
        Ok(board) => Some(board),
        Err(_) => None,
    }
}

/// What a search looks at.
#[derive(Clone, Copy, Debug, PartialEq, Eq)]
pub(crate) enum SearchKind {
    /// The positions of the main line, and of variations if asked.
    Position,
    /// The counts of men along the main line.
    Material,
    /// The head of the game.
    Header,
}

/// The side to move: `w` or `b`.
pub(crate) fn side(word: &[u8]) -> Option<Colour>
    ensures { result ≡ side word.now }
{
    if word == b"w".as_slice() {
        return Some(Colour::White);
    }
    if word == b"b".as_slice() {
        return Some(Colour::Black);
    }
    None
}

/// How a search joins the filter: `ignore`, `and` or `or`.
pub(crate) fn op(word: &[u8]) -> Option<Op>
    ensures { result ≡ op word.now }
{
    if word == b"ignore".as_slice() {
        return Some(Op::Ignore);
    }
    if word == b"and".as_slice() {
        return Some(Op::And);
    }
    if word == b"or".as_slice() {
        return Some(Op::Or);
    }
    None
}

/// The word of a search of positions by which it looks in variations too: `vars`.
pub(crate) fn vars(word: &[u8]) -> Option<bool>
    ensures { result ≡ vars word.now }
{
    if word == b"vars".as_slice() {
        return Some(true);
    }
    None
}

/// What a search looks at: `position`, `material` or `header`.
pub(crate) fn search_kind(word: &[u8]) -> Option<SearchKind>
    ensures { result ≡ search_kind word.now }
{
    if word == b"position".as_slice() {
        return Some(SearchKind::Position);
    }
    if word == b"material".as_slice() {
        return Some(SearchKind::Material);
    }
    if word == b"header".as_slice() {
        return Some(SearchKind::Header);
    }
    None
}

/// What positions are to have in common: `exact`, `pawns`, `files` or `material`.
pub(crate) fn mode(word: &[u8]) -> Option<Mode>
    ensures { result ≡ mode word.now }
{
    if word == b"exact".as_slice() {
        return Some(Mode::Exact);
    }
    if word == b"pawns".as_slice() {
        return Some(Mode::Pawns);
    }
    if word == b"files".as_slice() {
        return Some(Mode::Files);
    }
    if word == b"material".as_slice() {
        return Some(Mode::Material);
    }
    None
}

/// `on` or `off`.
pub(crate) fn switch(word: &[u8]) -> Option<bool>
    ensures { result ≡ switch word.now }
{
    if word == b"on".as_slice() {
        return Some(true);
    }
    if word == b"off".as_slice() {
        return Some(false);
    }
    None
}

/// `yes` or `no`.
pub(crate) fn answer(word: &[u8]) -> Option<bool>
    ensures { result ≡ answer word.now }
{
    if word == b"yes".as_slice() {
        return Some(true);
    }
    if word == b"no".as_slice() {
        return Some(false);
    }
    None
}

/// The bit of the marks that a letter names: the user marks from 0 on, then the custom marks `1` to `6` from 12 on.
pub(crate) fn mark_bit(word: &[u8]) -> Option<u8>
    ensures bit { result ≡ mark_bit word.now }
    ensures below { IfSome result (λ bit. bit < 18) }
{
    let [byte] = word else {
        return None;
    };
    place_of(*byte, mark_letters())
}

// The place of the first byte of `bytes` that is `byte`.
fn place_of(byte: u8, bytes: &[u8]) -> Option<u8>
    requires { length bytes.now ≤ 255 }
    ensures place { result ≡ position_from (λ other. other == byte) 0 bytes.now }
    ensures below { IfSome result (λ place. place < length bytes.now) }
{
    let mut place = 0u8;
    for other in bytes {
        if *other == byte {
            return Some(place);
        }
        place += 1;
    }
    None
}

/// The name of a filter: 1 to 32 letters, digits and underscores.
#[tactic(auto, unfolding(crate::specs::Forms::filter_name))]
pub(crate) fn filter_name(word: &[u8]) -> Option<&[u8]>
    ensures named { option_map (λ name. name.now) result ≡ filter_name word.now }
    ensures free { IfSome result (λ name. IsZeroFree name.now) }
    ensures short { IfSome result (λ name. length name.now ≤ 32) }
{
    if 1 <= word.len() && word.len() <= 32 && has_name_bytes_alone(word) {
        Some(word)
    } else {
        None
    }
}

fn has_name_bytes_alone(word: &[u8]) -> bool
    ensures same { result ≡ list_all (λ byte. is_ascii_alphanumeric byte || byte == 95) word.now }
    ensures free { OnTrue result (IsZeroFree word.now) }
{
    word.iter()
        .all(|byte| byte.is_ascii_alphanumeric() || *byte == b'_')
}

/// A name of the base, or the beginning of one: any bytes but zero.
pub(crate) fn name_text(word: &[u8]) -> Option<&[u8]>
    ensures named { option_map (λ name. name.now) result ≡ name_text word.now }
    ensures free { IfSome result (λ name. IsZeroFree name.now) }
{
    if has_no_zero(word) { Some(word) } else { None }
}

// Whether no byte is zero.
fn has_no_zero(bytes: &[u8]) -> bool
    ensures same { result ≡ list_all (λ byte. not (byte == 0)) bytes.now }
    ensures free { OnTrue result (IsZeroFree bytes.now) }
{
    bytes.iter().all(|byte| *byte != 0)
}

/// The word that ends a body, behind `<<`: 1 to 32 letters and digits.
#[tactic(auto, unfolding(crate::specs::Forms::body_end))]
pub(crate) fn body_end(word: &[u8]) -> Option<&[u8]>
    ensures ends { option_map (λ name. name.now) result ≡ body_end word.now }
    ensures free { IfSome result (λ name. IsZeroFree name.now) }
    ensures short { IfSome result (λ name. length name.now ≤ 32) }
{
    match word {
        [b'<', b'<', name @ ..] => end_word(name),
        _ => None,
    }
}

fn end_word(word: &[u8]) -> Option<&[u8]>
    ensures ends { option_map (λ name. name.now) result ≡ short_word is_ascii_alphanumeric word.now }
    ensures free { IfSome result (λ name. IsZeroFree name.now) }
    ensures short { IfSome result (λ name. length name.now ≤ 32) }
{
    if 1 <= word.len() && word.len() <= 32 && is_alphanumeric(word) {
        Some(word)
    } else {
        None
    }
}

fn is_alphanumeric(word: &[u8]) -> bool
    ensures same { result ≡ list_all is_ascii_alphanumeric word.now }
    ensures free { OnTrue result (IsZeroFree word.now) }
{
    word.iter().all(|byte| byte.is_ascii_alphanumeric())
}
