//! The commands of a script over an open base: which of them a line says, and what it does.
#![tactic(auto)]

mod answers;
mod changes;
mod laws;
mod lines;
mod parts;
mod saying;
mod searches;
mod serving;
mod showing;
mod slots;
mod texts;

pub use laws::{
    filters_fit, lines_of_any_user, lines_without_files, refused_tasks_change_nothing, slots_stay,
};
pub use serving::{Order, serve};
