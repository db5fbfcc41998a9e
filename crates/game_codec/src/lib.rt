//! Records of games: the bytes in which a games file keeps the tags that no field of a head stands for, the start, the
//! moves with their variations, and the comments of a game.
#![tactic(auto)]

mod all_walk;
mod breach;
mod building;
mod checking;
mod decoding;
mod encoding;
mod event_date;
mod fault;
mod moves;
mod one_reading;
mod passing;
mod place;
mod reading;
mod round_trip;
mod start;
mod tags;
mod tally;
mod texts;
mod token;
mod tokens;
mod totals;
mod visits;
mod walk;

pub use all_walk::{AllWalk, OuterLines};
pub use checking::first_fault;
pub use decoding::{Decoded, decode_game};
pub use encoding::{Encoded, encode_game, encode_to_end};
pub use event_date::event_date_in;
pub use fault::{DecodeError, EncodeError, RecordFault, RecordWhat};
pub use one_reading::bytes_have_one_reading;
pub use reading::{MainPlace, Reading};
pub use round_trip::written_records_are_read;
pub use totals::Totals;
pub use visits::all_moves_have_the_main_line;
pub use walk::Walk;
