//! The slots that are a user's own.
ghost use Rattle.std.specs.Prelude.{◌≡◌};
ghost use Rattle.view_commands.specs.Views.{all_slots};

/// The slots that are a user's own: `count` of the eight from the one with the number `first` on. The user counts them
/// from 0.
#[derive(Clone, Copy, Debug, PartialEq, Eq)]
pub struct Window {
    /// The number of the first one.
    pub first: u8,
    /// How many there are.
    pub count: u8,
}

impl Window {
    /// All eight: those of a user who shares them with no other.
    pub fn all() -> Window
        ensures all { result ≡ all_slots }
    {
        Window { first: 0, count: 8 }
    }
}
