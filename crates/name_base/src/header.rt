//! The header of a names file.
ghost use Rattle.std.specs.Prelude.{◌≡◌, ◌≤◌, IfOk};
ghost use Rattle.name_base.specs.NameLists.{limit_of};
ghost use Rattle.name_base.specs.NamesFile.{AreCounts, AreSmall, player_shape, event_shape, site_shape, round_shape};
ghost use Rattle.name_base.specs.Reading.{Gives, magic_at, number_at, count_at, per_kind_at, header_at};

use crate::field::{number_at, skip_at};
use crate::{NameKind, NameWhat};

/// `Scid.sn` and a zero byte.
pub(crate) const MAGIC: [u8; 8] = *b"Scid.sn\0";

/// How many names of a kind a file has, and the greatest of their frequencies.
#[derive(Clone, Copy, Debug, Drop)]
pub(crate) struct Shape {
    pub(crate) count: u32,
    pub(crate) greatest: u32,
}

/// A number for each kind.
#[derive(Clone, Copy, Debug, Drop)]
pub(crate) struct PerKind {
    pub(crate) players: u32,
    pub(crate) events: u32,
    pub(crate) sites: u32,
    pub(crate) rounds: u32,
}

/// The number of names of each kind, and the greatest of their frequencies.
#[derive(Clone, Copy, Debug, Drop)]
pub(crate) struct Header {
    pub(crate) counts: PerKind,
    pub(crate) greatest: PerKind,
}

impl Header {
    pub(crate) fn player_shape(&self) -> Shape
        ensures { result ≡ player_shape self.now }
    {
        Shape {
            count: self.counts.players,
            greatest: self.greatest.players,
        }
    }

    pub(crate) fn event_shape(&self) -> Shape
        ensures { result ≡ event_shape self.now }
    {
        Shape {
            count: self.counts.events,
            greatest: self.greatest.events,
        }
    }

    pub(crate) fn site_shape(&self) -> Shape
        ensures { result ≡ site_shape self.now }
    {
        Shape {
            count: self.counts.sites,
            greatest: self.greatest.sites,
        }
    }

    pub(crate) fn round_shape(&self) -> Shape
        ensures { result ≡ round_shape self.now }
    {
        Shape {
            count: self.counts.rounds,
            greatest: self.greatest.rounds,
        }
    }
}

#[tactic(auto, unfolding(crate::specs::Reading::magic_at))]
fn magic_at(bytes: &[u8]) -> Result<&[u8], NameWhat>
    ensures { Gives (λ x. x.now) result (magic_at bytes.now) }
{
    if bytes.len() < 8 {
        return Err(NameWhat::Short);
    }
    let (front, rest) = bytes.split_at(8);
    if front != MAGIC.as_slice() {
        return Err(NameWhat::Magic);
    }
    Ok(rest)
}

/// The number of names of a kind.
#[tactic(auto, unfolding(crate::specs::Reading::count_at))]
fn count_at(kind: NameKind, bytes: &[u8]) -> Result<(u32, &[u8]), NameWhat>
    ensures gives { Gives (λ x. (x.0, x.1.now)) result (count_at kind bytes.now) }
    ensures within { IfOk result (λ x. x.0 ≤ limit_of kind) }
{
    let (count, rest) = number_at(3, bytes)?;
    if kind.limit() < count {
        return Err(NameWhat::Count);
    }
    Ok((count, rest))
}

/// The number of names of each kind.
#[tactic(auto, unfolding(crate::specs::Reading::per_kind_at))]
fn counts_at(bytes: &[u8]) -> Result<(PerKind, &[u8]), NameWhat>
    ensures gives { Gives (λ x. (x.0, x.1.now)) result (per_kind_at count_at bytes.now) }
    ensures within { IfOk result (λ x. AreCounts x.0) }
{
    let (players, rest) = count_at(NameKind::Player, bytes)?;
    let (events, rest) = count_at(NameKind::Event, rest)?;
    let (sites, rest) = count_at(NameKind::Site, rest)?;
    let (rounds, rest) = count_at(NameKind::Round, rest)?;
    let counts = PerKind {
        players,
        events,
        sites,
        rounds,
    };
    Ok((counts, rest))
}

/// The greatest frequency of each kind.
#[tactic(auto, unfolding(crate::specs::Reading::per_kind_at))]
fn greatest_at(bytes: &[u8]) -> Result<(PerKind, &[u8]), NameWhat>
    ensures gives { Gives (λ x. (x.0, x.1.now)) result (per_kind_at (λ _. number_at 3) bytes.now) }
    ensures small { IfOk result (λ x. AreSmall x.0) }
{
    let (players, rest) = number_at(3, bytes)?;
    let (events, rest) = number_at(3, rest)?;
    let (sites, rest) = number_at(3, rest)?;
    let (rounds, rest) = number_at(3, rest)?;
    let greatest = PerKind {
        players,
        events,
        sites,
        rounds,
    };
    Ok((greatest, rest))
}

/// The header and the bytes after it.
#[tactic(auto, unfolding(crate::specs::Reading::header_at))]
pub(crate) fn header_at(bytes: &[u8]) -> Result<(Header, &[u8]), NameWhat>
    ensures gives { Gives (λ x. (x.0, x.1.now)) result (header_at bytes.now) }
    ensures counts { IfOk result (λ x. AreCounts x.0.counts) }
{
    let stamp = magic_at(bytes)?;
    let rest = skip_at(4, stamp)?;
    let (counts, rest) = counts_at(rest)?;
    let (greatest, rest) = greatest_at(rest)?;
    Ok((Header { counts, greatest }, rest))
}
