//! The four kinds of names.
ghost use Rattle.std.specs.Prelude.{◌≡◌};
ghost use Rattle.name_base.specs.NameLists.{limit_of};

use std::fmt;

/// A kind of name, in the order of the names file.
#[derive(Clone, Copy, Debug, Drop, PartialEq, Eq, PartialOrd, Ord, Hash)]
pub enum NameKind {
    /// The names of White and Black.
    Player,
    Event,
    Site,
    Round,
}

impl fmt::Display for NameKind {
    fn fmt<W: fmt::Write>(&self, f: &mut fmt::Formatter<W>) -> fmt::Result {
        f.write_str(match self {
            NameKind::Player => "player",
            NameKind::Event => "event",
            NameKind::Site => "site",
            NameKind::Round => "round",
        })
    }
}

impl NameKind {
    /// The greatest number of names of this kind in one base.
    pub fn limit(self) -> u32
        ensures limit { result ≡ limit_of self }
    {
        match self {
            NameKind::Player => 1_048_576,
            NameKind::Event | NameKind::Site => 524_288,
            NameKind::Round => 262_144,
        }
    }
}
