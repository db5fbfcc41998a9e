//! What one user of an open base has alone.
use crate::saved::SavedFilter;
use game_filter::Filter;

/// A filter with an entry for each game, and the filters that are kept by name.
#[derive(Drop)]
pub struct Seat {
    /// The filter.
    pub filter: Filter,
    /// The filters that are kept by name, in the order in which their names were first kept.
    pub saved: Vec<SavedFilter>,
}
