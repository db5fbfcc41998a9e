//! What says of each game whether it is in.
ghost use Rattle.std.specs.Prelude.{◌≡◌};
ghost use Rattle.tree_live.specs.Watching.{wanted};

/// What a list of marks, one per game, says of whether the games are in.
#[derive(Clone, Copy, Debug)]
pub(crate) enum Marks {
    /// A filter: a game is in if it has a ply.
    Plies,
    /// A renumbering: a game goes out if it gets no new number.
    Numbers,
}

impl Marks {
    /// Whether a game that is in or out is in by its mark.
    pub(crate) fn wanted(self, is_in: bool, mark: Option<u32>) -> bool
        ensures wanted { result ≡ wanted self is_in mark }
    {
        match self {
            Marks::Plies => mark.is_some(),
            Marks::Numbers => is_in && mark.is_some(),
        }
    }
}
