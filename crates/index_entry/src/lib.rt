//! The index file: the 47 bytes of a game's entry as plain fields, both ways, and the header in front of the entries.
#![tactic(auto)]

mod counts;
mod entry;
mod fault;
mod fields;
mod index;
mod packing;
mod unpacking;

pub use counts::count_code;
pub use entry::Entry;
pub use fault::{EntryFault, IndexFault};
pub use fields::{
    black_in, black_rating_in, comments_in, date_in, eco_in, event_in, has_own_start_in,
    has_promotion_in, has_underpromotion_in, home_count_in, home_in, home_word_in, is_deleted_in,
    marks_in, material_in, nags_in, outcome_in, plies_in, round_in, site_in, variations_in,
    white_in, white_rating_in,
};
pub use index::{ENTRY_LEN, HEADER_LEN, IndexHead, entry_of, read_header, read_index, write_index};
pub use packing::pack;
pub use unpacking::{place_of, unpack};
