//! The names of tags.
ghost use Rattle.std.specs.Prelude.{◌≡◌, ◌≤◌, ◌<◌, ◌≢◌, ◌↔◌, ◌==◌, IsTrue, All, Some, IfSome, length, codes};
ghost use Rattle.std.specs.Bool.{OnTrue};
ghost use Rattle.std.specs.List.{list_all, list_any, position_from};
ghost use Rattle.std.specs.Str.{bytes_eq};
ghost use Rattle.game_tree.specs.TagName.{is_reserved, is_refused, rating_of, rating_tag, kind_of, is_tag_byte, is_tag_name, IsTagByte, IsTagName};

use cell_core::Colour;

const ROSTER_NAMES: [&[u8]; 7] = [
    b"Event", b"Site", b"Date", b"Round", b"White", b"Black", b"Result",
];

const REFUSED_NAMES: [&[u8]; 4] = [b"SetUp", b"Setup", b"FEN", b"ScidFlags"];

const WHITE_RATINGS: [&[u8]; 7] = [
    b"WhiteElo",
    b"WhiteRating",
    b"WhiteRapid",
    b"WhiteICCF",
    b"WhiteUSCF",
    b"WhiteDWZ",
    b"WhiteECF",
];

const BLACK_RATINGS: [&[u8]; 7] = [
    b"BlackElo",
    b"BlackRating",
    b"BlackRapid",
    b"BlackICCF",
    b"BlackUSCF",
    b"BlackDWZ",
    b"BlackECF",
];

/// Whether a tag of this name is a field of the head or told by other means, so that no extra tag has the name. These
/// are the seven tags of the roster (PGN standard, section 8.1.1), the ratings of both players, ECO, SetUp, Setup, FEN
/// and ScidFlags.
#[tactic(auto, unfolding(crate::specs::TagName::is_reserved))]
pub fn is_reserved(name: &[u8]) -> bool
    ensures reserved { result ≡ is_reserved name.now }
{
    is_among(&ROSTER_NAMES, name)
        || name == b"ECO".as_slice()
        || rating_of(name).is_some()
        || is_refused(name)
}

/// Whether this is the name of what a game says by other means than tags: SetUp, Setup, FEN and ScidFlags.
pub fn is_refused(name: &[u8]) -> bool
    ensures refused { result ≡ is_refused name.now }
{
    is_among(&REFUSED_NAMES, name)
}

/// The side and the kind of the rating whose tag has this name, as `WhiteElo` is that of White with the kind 0.
#[tactic(auto, using(crate::proofs::TagNameLemmas::naming))]
pub fn rating_of(name: &[u8]) -> Option<(Colour, u8)>
    ensures rating { result ≡ rating_of name.now }
    ensures kind { IfSome result (λ rating. rating.1 ≤ 6) }
    ensures name { IfSome result (λ rating. rating_tag rating.0 rating.1 ≡ name.now) }
{
    find_rating(name)
}

/// The name of the tag of a side's rating of this kind.
#[tactic(auto, using(crate::proofs::TagNameLemmas::naming))]
pub fn rating_tag(side: Colour, kind: u8) -> &'static [u8]
    requires { kind ≤ 6 }
    ensures name { result.now ≡ rating_tag side kind }
    ensures reads_back { rating_of result.now ≡ Some (side, kind) }
{
    name_of_rating(side, kind)
}

// The side and the kind, without its laws.
#[tactic(auto, unfolding(crate::specs::TagName::rating_of))]
fn find_rating(name: &[u8]) -> Option<(Colour, u8)>
    ensures { result ≡ rating_of name.now }
{
    if let Some(kind) = kind_of(Colour::White, name) {
        return Some((Colour::White, kind));
    }
    let kind = kind_of(Colour::Black, name)?;
    Some((Colour::Black, kind))
}

// The kind of a side's rating of this name.
fn kind_of(side: Colour, name: &[u8]) -> Option<u8>
    ensures { result ≡ kind_of side name.now }
{
    match side {
        Colour::White => place_among(&WHITE_RATINGS, name),
        Colour::Black => place_among(&BLACK_RATINGS, name),
    }
}

// The name, without its law.
#[tactic(auto, unfolding(crate::specs::TagName::rating_tag))]
fn name_of_rating(side: Colour, kind: u8) -> &'static [u8]
    requires { kind ≤ 6 }
    ensures { result.now ≡ rating_tag side kind }
{
    match side {
        Colour::White => WHITE_RATINGS[usize::from(kind)],
        Colour::Black => BLACK_RATINGS[usize::from(kind)],
    }
}

// Whether one of these names is `name`.
fn is_among(names: &[&[u8]], name: &[u8]) -> bool
    ensures { result ≡ list_any (λ other. bytes_eq other.now name.now) names.now }
{
    names.iter().any(|other| *other == name)
}

// Where the first of these names that is `name` stands.
fn place_among(names: &[&[u8]], name: &[u8]) -> Option<u8>
    requires { length names.now < 256 }
    ensures { result ≡ position_from (λ other. bytes_eq other.now name.now) 0 names.now }
{
    let mut place = 0u8;
    for other in names {
        if *other == name {
            return Some(place);
        }
        place += 1;
    }
    None
}

/// Whether these bytes are a tag name: 1 to 240 bytes from 33 to 126 without `"` and `]`.
pub fn is_tag_name(name: &[u8]) -> bool
    ensures named { IsTrue result ↔ IsTagName name.now }
    ensures test { result ≡ is_tag_name name.now }
{
    1 <= name.len() && name.len() <= 240 && has_tag_bytes_alone(name)
}

fn has_tag_bytes_alone(name: &[u8]) -> bool
    ensures each { IsTrue result ↔ All IsTagByte name.now }
    ensures all { result ≡ list_all is_tag_byte name.now }
{
    name.iter().all(|byte| is_tag_byte(*byte))
}

/// Whether this is a byte of a tag name: one from 33 to 126, and neither `"` nor `]`.
pub fn is_tag_byte(byte: u8) -> bool
    ensures byte { result ≡ is_tag_byte byte }
    ensures not_zero { OnTrue result (byte ≢ 0) }
{
    33 <= byte && byte <= 126 && byte != b'"' && byte != b']'
}
