//! The fields of a FEN after the placement.
ghost use Rattle.std.specs.Prelude.{◌≡◌};
ghost use Rattle.std.specs.List.{list_all};
ghost use Rattle.std.specs.Char.{is_ascii_digit};
ghost use Rattle.chess_text.specs.Fields.{or_word};
ghost use Rattle.chess_text.specs.WordReading.{passed_spaces, front_word, behind_word};
ghost use Rattle.chess_text.specs.FieldReading.{word_of, rest_of, side_named, with_right, rights_named, en_passant_named, is_counter};

use cell_core::{Colour, Square};
use chess_laws::{Rights, en_passant_rank};

// The first word of the text, empty if there is none, and what stands behind it.
#[tactic(auto, using(crate::proofs::WordLaws::word_is, crate::proofs::WordLaws::rest_is))]
pub fn next_word(text: &[u8]) -> (&[u8], &[u8])
    ensures word { result.0.now ≡ word_of text.now }
    ensures rest { result.1.now ≡ rest_of text.now }
{
    split_word(skip_spaces(text))
}

// The text from its first byte on that is no space.
fn skip_spaces(text: &[u8]) -> &[u8]
    ensures { result.now ≡ passed_spaces text.now }
{
    let mut rest = text;
    while let [b' ', tail @ ..] = rest {
        rest = tail;
    }
    rest
}

// The bytes up to the first space, and those from it on.
fn split_word(text: &[u8]) -> (&[u8], &[u8])
    ensures word { result.0.now ≡ front_word text.now }
    ensures rest { result.1.now ≡ behind_word text.now }
{
    for (i, byte) in text.iter().enumerate() {
        if *byte == b' ' {
            return text.split_at(i);
        }
    }
    (text, &text[text.len()..])
}

// The word, or the default if it is empty.
pub fn or_default<'a>(word: &'a [u8], default: &'a [u8]) -> &'a [u8]
    ensures { result.now ≡ or_word word.now default.now }
{
    if word.is_empty() { default } else { word }
}

// The side to move.
pub fn side_of(word: &[u8]) -> Option<Colour>
    ensures { result ≡ side_named word.now }
{
    match word {
        [b'w'] => Some(Colour::White),
        [b'b'] => Some(Colour::Black),
        _ => None,
    }
}

const NO_RIGHTS: Rights = Rights {
    white_king_side: false,
    white_queen_side: false,
    black_king_side: false,
    black_queen_side: false,
};

// The castling rights that a word names: `-` for none, or letters of `KQkq`, each at most once.
#[tactic(auto, unfolding(crate::specs::FieldReading::rights_named))]
pub fn rights_of(word: &[u8]) -> Option<Rights>
    ensures { result ≡ rights_named word.now }
{
    match word {
        [] => return None,
        [b'-'] => return Some(NO_RIGHTS),
        _ => {}
    }
    let mut rights = NO_RIGHTS;
    for letter in word {
        rights = add_right(rights, *letter)?;
    }
    Some(rights)
}

// The rights with the one that the letter names, or `None` if it names none or one that is there.
#[tactic(auto, unfolding(crate::specs::FieldReading::with_right))]
fn add_right(rights: Rights, letter: u8) -> Option<Rights>
    ensures { result ≡ with_right rights letter }
{
    match letter {
        b'K' if !rights.white_king_side => Some(Rights {
            white_king_side: true,
            ..rights
        }),
        b'Q' if !rights.white_queen_side => Some(Rights {
            white_queen_side: true,
            ..rights
        }),
        b'k' if !rights.black_king_side => Some(Rights {
            black_king_side: true,
            ..rights
        }),
        b'q' if !rights.black_queen_side => Some(Rights {
            black_queen_side: true,
            ..rights
        }),
        _ => None,
    }
}

// The en passant square: `-` for none, or a square of the sixth rank with White to move, of the third with Black.
pub fn en_passant_of(side: Colour, word: &[u8]) -> Option<Option<Square>>
    ensures { result ≡ en_passant_named side word.now }
{
    let rank = en_passant_rank(side);
    match word {
        [b'-'] => Some(None),
        [file, digit] if matches!(*file, b'a'..=b'h') && *digit == b'1' + rank => {
            Some(Some(Square::at(8 * rank + (*file - b'a'))))
        }
        _ => None,
    }
}

// Whether the word is a counter: decimal digits, one at least.
pub fn is_counter(word: &[u8]) -> bool
    ensures { result ≡ is_counter word.now }
{
    !word.is_empty() && are_digits(word)
}

// Whether every byte is a decimal digit.
fn are_digits(word: &[u8]) -> bool
    ensures { result ≡ list_all is_ascii_digit word.now }
{
    word.iter().all(|byte| byte.is_ascii_digit())
}
