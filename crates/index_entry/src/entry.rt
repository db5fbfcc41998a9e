//! What an entry says of a game.
use game_tree::{Date, Outcome, Rating};

/// What the index says of a game.
#[derive(Clone, Copy, Debug, PartialEq, Eq)]
pub struct Entry {
    /// Where the record begins in the games file.
    pub offset: u32,
    /// The length of the record in bytes, at most 131,071.
    pub len: u32,
    /// Whether the game begins at another position than the standard one.
    pub own_start: bool,
    /// Whether any of its lines has a promotion.
    pub promo: bool,
    /// Whether any of its lines has a promotion to another man than a queen.
    pub under: bool,
    /// Whether the game is marked as deleted.
    pub deleted: bool,
    /// The twelve user marks in bits 0 to 11 and the six custom marks in bits 12 to 17.
    pub marks: u32,
    /// White's id, below 2^20.
    pub white: u32,
    /// Black's id, below 2^20.
    pub black: u32,
    /// The event's id, below 2^19.
    pub event: u32,
    /// The site's id, below 2^19.
    pub site: u32,
    /// The round's id, below 2^18.
    pub round: u32,
    /// The code of the number of variations in all lines.
    pub vars: u8,
    /// The code of the number of comments in all lines.
    pub comments: u8,
    /// The code of the number of NAGs in all lines.
    pub nags: u8,
    /// The result.
    pub result: Outcome,
    /// The ECO code, at most 65,500; 0 is none.
    pub eco: u16,
    /// The game's date.
    pub date: Date,
    /// The event's date; it is unknown, or within three years of the game's.
    pub event_date: Date,
    /// White's rating.
    pub white_rating: Rating,
    /// Black's rating.
    pub black_rating: Rating,
    /// The final counts: White's queens, rooks, bishops, knights and pawns, and then Black's; at most 15 pawns and 3 of each other kind.
    pub material: [u8; 10],
    /// The half-moves of the main line, at most 1,023.
    pub plies: u16,
    /// The number of home values, below 64.
    pub home_count: u8,
    /// The home values in their order, each below 16, and 0 past the end of their list.
    pub home: [u8; 16],
}
