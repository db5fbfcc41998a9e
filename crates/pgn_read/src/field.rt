//! What the names of tags tell.
ghost use Rattle.std.specs.Prelude.{◌≡◌, false, MatchOption};
ghost use Rattle.std.specs.List.{list_any};
ghost use Rattle.std.specs.Str.{bytes_eq};
ghost use Rattle.pgn_read.specs.Field.{own_names, name_text, is_roster_name, name_of, IsField, is_own, rating_in};

use cell_core::Colour;
use game_tree::rating_of;

/// The names of tags that a game is read from, but for those of ratings.
#[derive(Clone, Copy, Debug, PartialEq, Eq)]
pub(crate) enum Name {
    Event,
    Site,
    Date,
    Round,
    White,
    Black,
    Result,
    Eco,
    SetUp,
    /// The same, as some programs write it.
    Setup,
    Fen,
    ScidFlags,
}

impl Name {
    // The name that these bytes are.
    fn of(name: &[u8]) -> Option<Name>
        ensures own { MatchOption result (list_any (λ own. bytes_eq own name.now) own_names ≡ false) (λ own. name_text own ≡ name.now) }
    {
        if name == b"Event".as_slice() {
            return Some(Name::Event);
        }
        if name == b"Site".as_slice() {
            return Some(Name::Site);
        }
        if name == b"Date".as_slice() {
            return Some(Name::Date);
        }
        if name == b"Round".as_slice() {
            return Some(Name::Round);
        }
        if name == b"White".as_slice() {
            return Some(Name::White);
        }
        if name == b"Black".as_slice() {
            return Some(Name::Black);
        }
        if name == b"Result".as_slice() {
            return Some(Name::Result);
        }
        if name == b"ECO".as_slice() {
            return Some(Name::Eco);
        }
        if name == b"SetUp".as_slice() {
            return Some(Name::SetUp);
        }
        if name == b"Setup".as_slice() {
            return Some(Name::Setup);
        }
        if name == b"FEN".as_slice() {
            return Some(Name::Fen);
        }
        if name == b"ScidFlags".as_slice() {
            return Some(Name::ScidFlags);
        }
        None
    }

    /// Whether it is one of the roster (PGN standard, section 8.1.1).
    pub(crate) fn is_roster(self) -> bool
        ensures roster { result ≡ is_roster_name self }
    {
        match self {
            Name::Event | Name::Site | Name::Date | Name::Round => true,
            Name::White | Name::Black | Name::Result => true,
            Name::Eco | Name::SetUp | Name::Setup | Name::Fen | Name::ScidFlags => false,
        }
    }
}

/// What a tag's name tells.
#[derive(Clone, Copy, Debug)]
pub(crate) enum Field {
    Own(Name),
    /// A rating of this side and kind.
    Rating(Colour, u8),
    Extra,
}

impl Field {
    /// What this name tells.
    #[tactic(auto, using(crate::proofs::FieldLaws::extra_free))]
    pub(crate) fn of(name: &[u8]) -> Field
        ensures name { name_of result name.now ≡ name.now }
        ensures field { IsField result name.now }
    {
        if let Some(own) = Name::of(name) {
            return Field::Own(own);
        }
        if let Some((side, kind)) = rating_of(name) {
            return Field::Rating(side, kind);
        }
        Field::Extra
    }

    /// Whether it is this name.
    pub(crate) fn is(self, name: Name) -> bool
        ensures own { result ≡ is_own self name }
    {
        match self {
            Field::Own(own) => own == name,
            Field::Rating(..) | Field::Extra => false,
        }
    }

    /// The rating that it is.
    pub(crate) fn rating(self) -> Option<(Colour, u8)>
        ensures rating { result ≡ rating_in self }
    {
        match self {
            Field::Rating(side, kind) => Some((side, kind)),
            Field::Own(_) | Field::Extra => None,
        }
    }
}
