//! The letters of men, both ways.
ghost use Rattle.std.specs.Prelude.{◌≡◌, ◌<◌};
ghost use Rattle.chess_text.specs.Letters.{capital_of, letter_of};
ghost use Rattle.chess_text.specs.LetterReading.{kind_named, man_named};

use cell_core::{Colour, Kind, Man};

// The kind of man that a capital letter names (PGN standard, 8.2.3.2).
#[tactic(auto, unfolding(crate::specs::LetterReading::kind_named))]
pub fn kind_of(letter: u8) -> Option<Kind>
    ensures named { result ≡ kind_named letter }
{
    match letter {
        b'K' => Some(Kind::King),
        b'Q' => Some(Kind::Queen),
        b'R' => Some(Kind::Rook),
        b'B' => Some(Kind::Bishop),
        b'N' => Some(Kind::Knight),
        b'P' => Some(Kind::Pawn),
        _ => None,
    }
}

// The man that a letter names in a placement: a capital is White's, a small letter Black's (PGN standard, 16.1.3.1).
#[tactic(auto, unfolding(crate::specs::LetterReading::man_named))]
pub fn man_of(letter: u8) -> Option<Man>
    ensures named { result ≡ man_named letter }
{
    if letter < b'a' {
        let kind = kind_of(letter)?;
        return Some(Man {
            colour: Colour::White,
            kind,
        });
    }
    let kind = kind_of(letter - (b'a' - b'A'))?;
    Some(Man {
        colour: Colour::Black,
        kind,
    })
}

// The letter of a man in a placement.
pub fn letter_of(man: Man) -> u8
    ensures { result ≡ letter_of man }
{
    let capital = capital_of(man.kind);
    match man.colour {
        Colour::White => capital,
        Colour::Black => capital + (b'a' - b'A'),
    }
}

// The capital letter of a kind of man.
pub fn capital_of(kind: Kind) -> u8
    ensures letter { result ≡ capital_of kind }
    ensures ascii { result < 96 }
{
    match kind {
        Kind::King => b'K',
        Kind::Queen => b'Q',
        Kind::Rook => b'R',
        Kind::Bishop => b'B',
        Kind::Knight => b'N',
        Kind::Pawn => b'P',
    }
}
