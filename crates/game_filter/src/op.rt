//! The ways in which a search joins with a filter.
/// How a search joins its matches with the filter that it finds.
#[derive(Clone, Copy, Debug, PartialEq, Eq, Hash)]
pub enum Op {
    /// Every game has its first matching ply, whatever the filter was.
    Ignore,
    /// A game that was in has its first matching ply; a game that was out stays out.
    And,
    /// A game that was in keeps its ply; a game that was out has its first matching ply.
    Or,
}

impl Op {
    ghost use Rattle.std.specs.Prelude.{◌≡◌, ℕ, Option, false};
    ghost use Rattle.game_filter.specs.Search.{entry_after, looks_at};

    /// Whether a search has to know the first matching ply of a game whose entry is `old`: of all
    /// games, of those that are in, or of those that are out.
    ///
    /// A game that is not looked at keeps its entry.
    pub fn looks_at(self, old: Option<u32>) -> bool
        ensures looks { result ≡ looks_at self old }
        ensures kept { (first : Option ℕ) → result ≡ false → entry_after self old first ≡ old }
    {
        match self {
            Op::Ignore => true,
            Op::And => old.is_some(),
            Op::Or => old.is_none(),
        }
    }

    /// The entry of a game after a search, from its entry `old` and its first matching ply.
    pub fn entry(self, old: Option<u32>, first: Option<u32>) -> Option<u32>
        ensures entry { result ≡ entry_after self old first }
    {
        match (self, old) {
            (Op::Ignore, _) | (Op::And, Some(_)) | (Op::Or, None) => first,
            (Op::And, None) => None,
            (Op::Or, Some(_)) => old,
        }
    }
}
