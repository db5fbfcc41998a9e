//! The moves of a line.
ghost use Rattle.std.specs.Prelude.{◌≡◌};
ghost use Rattle.chess_laws.specs.Position.{start_setup};
ghost use Rattle.eco_class.specs.Cutting.{words_of};
ghost use Rattle.eco_class.specs.Reading.{played};

use crate::cutting::next_word;
use chess_laws::Position;
use chess_text::{SanFault, read_san};

// The position after the moves of these words, from the initial position on.
pub(crate) fn played(words: &[u8]) -> Result<Position, SanFault>
    ensures { result ≡ played start_setup (words_of words.now) }
{
    let mut place = Position::start();
    let mut rest = words;
    while let Some(word) = next_word(rest) {
        match read_san(&place, word.text) {
            Ok(m) => place.play(m),
            Err(fault) => return Err(fault),
        }
        rest = word.behind;
    }
    Ok(place)
}
