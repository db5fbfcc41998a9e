//! Places in a text.
ghost use Rattle.std.specs.Prelude.{◌≡◌, fold};
ghost use Rattle.pgn_read.specs.Place.{next_number, next_place, first_place};

/// A place in a text: its line and its column, both counted from 1. They stand still at 4,294,967,295.
#[derive(Clone, Copy, Debug, PartialEq, Eq)]
pub(crate) struct Place {
    pub(crate) line: u32,
    pub(crate) column: u32,
}

impl Place {
    /// The place of a text's first byte.
    pub(crate) fn first() -> Place
        ensures first { result ≡ first_place }
    {
        Place { line: 1, column: 1 }
    }

    /// The place behind a byte.
    pub(crate) fn next(self, byte: u8) -> Place
        ensures next { result ≡ next_place self byte }
    {
        if byte == b'\n' {
            Place {
                line: next_number(self.line),
                column: 1,
            }
        } else {
            Place {
                line: self.line,
                column: next_number(self.column),
            }
        }
    }

    /// The place behind these bytes.
    pub(crate) fn behind(self, bytes: &[u8]) -> Place
        ensures behind { result ≡ fold next_place self bytes.now }
    {
        let mut place = self;
        for byte in bytes {
            place = place.next(*byte);
        }
        place
    }
}

fn next_number(number: u32) -> u32
    ensures { result ≡ next_number number }
{
    number.saturating_add(1)
}
