//! The lines of a script as commands: words, quoted parts, the forms of arguments, and the first fault of a line.
#![tactic(auto)]

mod arguments;
mod command;
mod fault;
mod forms;
mod grammar;
mod head_items;
mod items;
mod mat_items;
mod numbers;
mod reading;
mod spelling;
mod tagging;
mod words;

pub use command::Command;
pub use fault::{CommandError, ScriptFault};
pub use grammar::lines_have_one_reading;
pub use reading::{read_command, shorn};
pub use spelling::quoted_words_are_read;
