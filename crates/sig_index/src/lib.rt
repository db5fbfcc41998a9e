//! What searches ask of the games of a base, by their heads, by the men on the board, by a position; and the signature of a game.
#![tactic(auto)]

mod brief;
mod coming;
mod games;
mod having;
mod head_query;
mod homes;
mod laws;
mod leaving;
mod mat_query;
mod mem_games;
mod pos_query;
mod record_sig;
mod signature;
mod skipping;
mod span;

pub use brief::Brief;
pub use coming::{can_come, missing_men_are_promoted};
pub use games::{FetchError, Games, HeadName};
pub use having::{can_have, start_men_skipping_is_sound};
pub use head_query::HeadQuery;
pub use homes::{home_allows, home_pawn_skipping_is_sound};
pub use laws::{held_records_stay, own_starts_are_marked, pawns_leave_once};
pub use mat_query::{MatQuery, MatRange};
pub use mem_games::MemGames;
pub use pos_query::{Mode, PosQuery};
pub use record_sig::signed;
pub use signature::{HomeList, Sig, sig_ending, sig_of};
pub use skipping::{can_stand, material_skipping_is_sound};
pub use span::Span;
