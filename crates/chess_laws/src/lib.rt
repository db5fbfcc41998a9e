//! The Laws of Chess, Article 3 of the FIDE Laws: which squares are attacked, what a position is, which moves are legal
//! and what they lead to.
#![tactic(auto)]

mod attack;
mod cases;
mod castling;
mod census;
mod counts;
mod effect;
mod fault;
mod leaps;
mod left;
mod legal;
mod making;
mod moves;
mod next;
mod position;
mod rules;
mod setup;
mod sliding;
mod targets;
mod towards;
mod unchecked;

pub use castling::{king_target, rook_home, rook_target};
pub use counts::Counts;
pub use effect::Effect;
pub use fault::PlaceFault;
pub use moves::is_before;
pub use next::passed_square;
pub use position::Position;
pub use rules::en_passant_rank;
pub use setup::{Rights, Setup, Wing};
