//! The opening tree: one row for each move that games made after a position, with its sums, and their text.
//! A move has one text in all positions of that board and side in which it is legal (`texts_of_moves_are_shared`).
#![tactic(auto)]

mod hit;
mod key;
mod laws;
mod move_text;
mod numbers;
mod order;
mod row;
mod rows;
mod writing;

pub use hit::GameHit;
pub use key::same_key;
pub use laws::{
    a_hit_changes_its_own_row_alone, keys_are_told_apart, rows_have_different_keys,
    rows_of_hits_have_one_text, texts_of_moves_are_shared,
};
pub use move_text::{is_key, needed};
pub use numbers::Numbers;
pub use order::in_order;
pub use row::Row;
pub use rows::Rows;
pub use writing::lines;
