//! The state that the commands of a script change: the machine, what it stands for, and what commands have in common.
#![tactic(auto)]

mod halt;
mod hits;
mod indexing;
mod lines;
mod machine;
mod page;
mod refusing;
mod short_lines;
mod writing;

pub use halt::{Halt, halt_of};
pub use hits::{counted, hits_of, is_passed, read_hit};
pub use indexing::replace_in_index;
pub use lines::{error_line, fault_line, game_line, line_of, no_game_line, san_words};
pub use machine::Machine;
pub use page::{write_full, write_page};
pub use refusing::{Refusal, refusal_line, refused_line};
pub use short_lines::{
    Line, count_line, filter_line, hit_line, name_line, number_line, unknown_game_line,
};
pub use writing::{PAGE, PIECE, write_filter, write_line};
