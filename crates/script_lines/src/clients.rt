//! The clients of a script, and which of them have ended.
ghost use Rattle.std.specs.Prelude.{◌≡◌};
ghost use Rattle.script_lines.specs.Clients.{has_ended, heard, is_end, leaver, new_clients};

use crate::line::{Line, is_quit};
use std::marker::Model;

/// Who may speak in a script, and who has ended: four clients, whose lines name them, or one, whose lines stand as they are.
#[derive(Clone, Copy, Debug, PartialEq, Eq)]
pub struct Clients {
    tagged: bool,
    ended: [bool; 4],
}

impl Model for Clients {
    ghost use Rattle.std.specs.Prelude.{◌≡◌, length};
    ghost use Rattle.script_lines.specs.Clients.{Clients};

    ghost Value = { Clients };

    ghost view = { λ c. record { tagged = c.tagged; ended = c.ended } };

    ghost inverse = { λ clients. record { tagged = clients.tagged; ended = clients.ended } };

    ghost invariant = { λ c. length c.ended ≡ 4 };
}

impl Clients {
    /// Those at the beginning of a script: the four of a desk, or the one.
    pub fn new(desk: bool) -> Clients
        ensures new { result ≡ new_clients desk }
    {
        Clients {
            tagged: desk,
            ended: [false, !desk, !desk, !desk],
        }
    }

    /// Whether lines name their clients.
    pub fn is_tagged(&self) -> bool
        ensures tagged { result ≡ self.now.tagged }
    {
        self.tagged
    }

    /// Whether a client has ended; one who is not there has.
    pub fn has_ended(&self, client: u8) -> bool
        ensures ended { result ≡ has_ended self.now client }
    {
        match self.ended.get(usize::from(client)) {
            Some(ended) => *ended,
            None => true,
        }
    }

    /// The clients hear a line: who says `quit` ends.
    #[tactic(auto, using(std::proofs::lemmas::List::set_past), unfolding(crate::specs::Clients::ended_by))]
    pub fn hear(&mut self, line: &Line)
        ensures heard { self.new ≡ heard self.old line.now }
    {
        let Some(client) = leaver(line) else {
            return;
        };
        let place = usize::from(client);
        if place < self.ended.len() {
            self.ended[place] = true;
        }
    }

    /// Whether a line ends the script: a client ends with it, and then all have ended.
    #[tactic(auto, unfolding(crate::specs::Clients::is_end))]
    pub fn is_end(&self, line: &Line) -> bool
        ensures end { result ≡ is_end self.now line.now }
    {
        if leaver(line).is_none() {
            return false;
        }
        let mut later = *self;
        later.hear(line);
        later.ended.iter().all(|ended| *ended)
    }
}

// The client who ends with a line.
fn leaver(line: &Line) -> Option<u8>
    ensures leaver { result ≡ leaver line.now }
{
    if is_quit(&line.order) {
        line.client
    } else {
        None
    }
}
