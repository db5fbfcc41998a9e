//! Live trees: the rows of a position that is watched. A view shows them, and they follow the filter and the games. The
//! view is told row by row, with each change or later by one call.
#![tactic(auto)]

mod blocks;
mod change;
mod counting;
mod entry;
mod following;
mod laws;
mod marks;
mod place;
mod row_changes;
mod showing;
mod slot;
mod slots;
mod table_view;
mod telling;
mod view;
mod watch;

pub use entry::Entry;
pub use laws::rows_change_with_games;
pub use slots::{NoView, Slots};
pub use table_view::TableView;
pub use view::TreeView;
pub use watch::Watch;
