//! What two games have to share before their records are read.
ghost use Rattle.std.specs.Prelude.{◌<◌, length};
ghost use Rattle.sig_index.specs.Games.{head_in};
ghost use Rattle.twin_games.specs.Keys.{IsPairing};

use game_tree::{Date, Outcome};
use sig_index::{Games, HeadName};

/// The names of White and Black, the date and the result of a game.
#[derive(Clone, Copy, Debug, PartialEq, Eq, Hash)]
pub(crate) struct Pairing<'a> {
    white: &'a [u8],
    black: &'a [u8],
    date: Date,
    result: Outcome,
}

/// That of game `i`.
pub(crate) fn pairing_of<'a, G: Games>(games: &'a G, i: u32) -> Pairing<'a>
    requires { i < length (G.sigs games.now) }
    ensures { IsPairing result (head_in (G.heads games.now) i) }
{
    Pairing {
        white: games.name(i, HeadName::White),
        black: games.name(i, HeadName::Black),
        date: games.date(i),
        result: games.outcome(i),
    }
}
