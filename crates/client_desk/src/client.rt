//! The clients of a desk.
use std::marker::Model;

/// One of the four clients of a desk. Contracts see its number, from 0 to 3.
#[derive(Clone, Copy, Debug, PartialEq, Eq)]
pub struct Client {
    number: u8,
}

impl Model for Client {
    ghost use Rattle.std.specs.Prelude.{ℕ, ◌<◌};

    ghost Value = { ℕ };

    ghost view = { λ c. c.number };

    ghost inverse = { λ number. record { number = number } };

    ghost invariant = { λ c. c.number < 4 };
}

impl Client {
    ghost use Rattle.std.specs.Prelude.{◌≡◌, ◌<◌, MatchOption};

    /// The client with this number, or none if it is above 3.
    pub fn new(number: u8) -> Option<Client>
        ensures client { MatchOption result (3 < number) (λ client. client ≡ number) }
    {
        if number > 3 {
            return None;
        }
        Some(Client { number })
    }

    /// The number of the client.
    pub fn number(self) -> u8
        ensures number { result ≡ self }
        ensures few { self < 4 }
    {
        self.number
    }
}
