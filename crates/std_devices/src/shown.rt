//! Names of files as they are shown.
use std::fmt;
use std::fmt::{Display, Formatter, Write};

/// A name of a file as it is written: on a terminal its control characters are escapes, so that no name tells the terminal what to do.
#[derive(Clone, Copy)]
pub struct Shown<'a> {
    name: &'a str,
    on_terminal: bool,
}

impl<'a> Shown<'a> {
    /// This name, for a terminal or for something else.
    pub fn new(name: &'a str, on_terminal: bool) -> Shown<'a> {
        Shown { name, on_terminal }
    }
}

impl Display for Shown<'_> {
    fn fmt<W: fmt::Write>(&self, f: &mut Formatter<W>) -> fmt::Result {
        if !self.on_terminal {
            return f.write_str(self.name);
        }
        for letter in self.name.chars() {
            if letter.is_control() {
                write!(f, "\\u{{{:x}}}", letter as u32)?;
            } else {
                f.write_char(letter)?;
            }
        }
        Ok(())
    }
}
