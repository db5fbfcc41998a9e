//! What a chess board is made of: squares, men, moves, the board of 64 squares, the same board packed into 32 bytes,
//! and texts without a zero byte.
#![tactic(auto)]

mod board;
mod man;
mod packed;
mod sets;
mod square;
mod step;
mod text;

pub use board::Board;
pub use man::{Colour, Kind, Man};
pub use packed::{PackedBoard, pack, unpack};
pub use square::Square;
pub use step::Move;
pub use text::{Text, is_zero_free};
