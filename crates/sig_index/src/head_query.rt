//! What a search of heads asks.
ghost use Rattle.std.specs.Prelude.{◌≡◌};
ghost use Rattle.sig_index.specs.Queries.{any_head};

use crate::Span;
use cell_core::Text;
use game_tree::Outcome;

/// What a search of heads asks of a game: all of the items that are there.
///
/// - A text of a name is one that the name begins with, byte by byte; `player` is that of either colour.
/// - `plies` are those of the main line, of which at most 1,023 are counted.
/// - `eco` are codes as a head has them.
/// - `mark` is a bit of a head's marks, below 18.
#[derive(Debug, Drop)]
pub struct HeadQuery {
    pub white: Option<Text>,
    pub black: Option<Text>,
    pub player: Option<Text>,
    pub event: Option<Text>,
    pub site: Option<Text>,
    pub round: Option<Text>,
    pub result: Option<Outcome>,
    pub year: Option<Span>,
    pub welo: Option<Span>,
    pub belo: Option<Span>,
    pub plies: Option<Span>,
    pub eco: Option<Span>,
    pub deleted: Option<bool>,
    pub mark: Option<u8>,
}

impl HeadQuery {
    /// The query that asks nothing.
    pub fn any() -> HeadQuery
        ensures nothing { result ≡ any_head }
    {
        HeadQuery {
            white: None,
            black: None,
            player: None,
            event: None,
            site: None,
            round: None,
            result: None,
            year: None,
            welo: None,
            belo: None,
            plies: None,
            eco: None,
            deleted: None,
            mark: None,
        }
    }
}
