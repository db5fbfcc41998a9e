//! Search of games by a position: games that an index decides or whose signatures cannot match are not read, and no memory is taken.
#![tactic(auto)]

mod asking;
mod boards;
mod coming;
mod homes;
mod in_memory;
mod laws;
mod matching;
mod searching;
mod telling;
mod walking;

pub use in_memory::next_in;
pub use laws::{first_plies_are_first, index_tells_hits, tests_are_sound};
pub use matching::{Sought, passes};
pub use searching::{hit, hit_sought, search};
pub use sig_index::{Mode, PosQuery};
pub use telling::{Told, hits_told, is_passed};
pub use walking::first_match;
