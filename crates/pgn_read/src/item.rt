//! What is read of a text: games, and what is no game.

use chess_text::{FenFault, SanFault};
use game_tree::{Game, Head};
use thiserror::Error;

/// An item of a text: a game with its head, or the first fault of what is no game.
#[derive(Debug, Drop)]
pub enum Item {
    Good(Head, Game),
    Bad(GameFault),
}

/// The first fault of an item, and the place of the first byte of its token. Lines and columns count from 1, and stand still
/// at 4,294,967,295.
#[derive(Clone, Copy, Debug, PartialEq, Eq, Error)]
#[error("line {line} column {column}: {what}")]
pub struct GameFault {
    pub line: u32,
    pub column: u32,
    pub what: GameWhat,
}

/// What is wrong with a token of a game's text.
#[derive(Clone, Copy, Debug, PartialEq, Eq, Error)]
pub enum GameWhat {
    /// A tag is malformed or has a zero byte, or a tag of the roster stands for the second time.
    #[error("bad tag")]
    Tag,
    /// A tag's name has more than 240 bytes, or its value more than 255.
    #[error("tag too long")]
    TagTooLong,
    /// A text is no move.
    #[error("{}", san_text(.0))]
    San(SanFault),
    /// A FEN tag is no position.
    #[error("bad position")]
    Fen(FenFault),
    /// A comment in braces is not closed.
    #[error("open comment")]
    Brace,
    /// There is a closing bracket too many, or a tag or the end of the text inside a variation.
    #[error("unbalanced variation")]
    Paren,
    /// More than 200 variations are open.
    #[error("variation too deep")]
    Depth,
    /// A token is none of those that may stand there.
    #[error("bad token")]
    Token,
    /// The token ends more than 1,048,576 bytes from the item's first byte.
    #[error("game too long")]
    TooLong,
}

// What the text of a move is called that is none.
fn san_text(fault: &SanFault) -> &'static str {
    match fault {
        SanFault::Shape => "bad move text",
        SanFault::NoMove => "no legal move",
        SanFault::Two => "ambiguous move",
    }
}
