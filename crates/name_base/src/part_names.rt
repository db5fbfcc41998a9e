//! The names of a names file as far as it goes.
ghost use Rattle.std.specs.Prelude.{◌≡◌, ◌<◌, Some, is_some, length, map, slice_get, IfOk, IfSome};
ghost use Rattle.std.specs.Option.{option_copied};
ghost use Rattle.name_base.specs.NameLists.{IsName, NameLists, limit_of, of_kind};
ghost use Rattle.name_base.specs.NamesFile.{NameFile};
ghost use Rattle.name_base.specs.PartNames.{AreKnown, all_known, filled_names, marked, name_met, names_in_part, no_part, part_of_kind};

use crate::NameKind;
use crate::header::{Shape, header_at};
use crate::kind_reader::{KindReader, read_part};
use std::alloc::{AllocError, Global};
use std::marker::Model;

/// The name that stands for one that is not known.
const UNKNOWN: &[u8] = b"?";

/// The names of one kind by id, as far as they were read.
#[derive(Drop)]
pub(crate) struct PartKind {
    // The names, empty if none was read.
    names: Vec<Vec<u8>>,
    // Of each id, whether a name with it was read.
    taken: Vec<bool>,
}

impl Model for PartKind {
    ghost use Rattle.std.specs.Prelude.{map};
    ghost use Rattle.name_base.specs.PartNames.{AreKnown, Known, marked};

    ghost Value = { Known };

    ghost view = { λ k. marked k.taken.items (map (λ v. v.items) k.names.items) };

    ghost invariant = { λ k. AreKnown k.taken.items (map (λ v. v.items) k.names.items) };
}

impl PartKind {
    /// The names at the places of their ids, and of each id whether a name with it was read.
    pub(crate) fn new(names: Vec<Vec<u8>>, taken: Vec<bool>) -> PartKind
        requires known { AreKnown taken.items (map (λ v. v.items) names.items) }
        ensures parts { result ≡ marked taken.items (map (λ v. v.items) names.items) }
    {
        PartKind { names, taken }
    }

    // The name with an id, if one was read.
    fn name_of(&self, id: u32) -> Option<&[u8]>
        ensures name { option_copied result ≡ name_met self.now id }
        ensures sound { IfSome result (λ name. IsName name.now) }
    {
        let place = id as usize;
        if place >= self.taken.len() {
            return None;
        }
        if !self.taken[place] {
            return None;
        }
        Some(self.names[place].as_slice())
    }
}

/// The names of a names file that stand before its first fault.
#[derive(Drop)]
pub struct PartNames {
    players: PartKind,
    events: PartKind,
    sites: PartKind,
    rounds: PartKind,
}

impl Model for PartNames {
    ghost use Rattle.name_base.specs.PartNames.{PartLists};

    ghost Value = { PartLists };

    ghost view = { λ n. record { players = n.players; events = n.events; sites = n.sites; rounds = n.rounds } };
}

impl PartNames {
    // No names.
    fn none(alloc: Global) -> PartNames
        ensures none { result ≡ no_part }
    {
        PartNames {
            players: PartKind::new(Vec::new(alloc), Vec::new(alloc)),
            events: PartKind::new(Vec::new(alloc), Vec::new(alloc)),
            sites: PartKind::new(Vec::new(alloc), Vec::new(alloc)),
            rounds: PartKind::new(Vec::new(alloc), Vec::new(alloc)),
        }
    }

    fn kind(&self, kind: NameKind) -> &PartKind
        ensures kind { result.now ≡ part_of_kind kind self.now }
    {
        match kind {
            NameKind::Player => &self.players,
            NameKind::Event => &self.events,
            NameKind::Site => &self.sites,
            NameKind::Round => &self.rounds,
        }
    }

    /// Whether a name with this id was read.
    pub fn has(&self, kind: NameKind, id: u32) -> bool
        ensures has { result ≡ is_some (name_met (part_of_kind kind self.now) id) }
    {
        self.kind(kind).name_of(id).is_some()
    }

    /// The name with this id, or `?` if none was read.
    pub fn name_of(&self, kind: NameKind, id: u32) -> &[u8]
        requires below { id < limit_of kind }
        ensures name { slice_get (of_kind kind (filled_names self.now)) id ≡ Some result.now }
        ensures sound { IsName result.now }
    {
        match self.kind(kind).name_of(id) {
            Some(name) => name,
            None => UNKNOWN,
        }
    }
}

/// The names of a names file that stand before its first fault. It fails only for want of memory.
pub fn read_part_names(alloc: Global, bytes: &[u8]) -> Result<PartNames, AllocError>
    ensures names { IfOk result (λ names. names ≡ names_in_part bytes.now) }
    // A file without a fault is read whole.
    ensures whole { (lists : NameLists) → NameFile bytes.now lists → IfOk result (λ names. names ≡ all_known lists) }
{
    read_part_file(alloc, bytes)
}

#[tactic(auto, unfolding(crate::specs::PartNames::names_in_part))]
fn read_part_file(alloc: Global, bytes: &[u8]) -> Result<PartNames, AllocError>
    ensures names { IfOk result (λ names. names ≡ names_in_part bytes.now) }
{
    let (header, rest) = match header_at(bytes) {
        Ok(found) => found,
        Err(_) => return Ok(PartNames::none(alloc)),
    };
    let (players, rest) = read_part(alloc, NameKind::Player, header.player_shape(), Some(rest))?;
    let (events, rest) = read_part(alloc, NameKind::Event, header.event_shape(), rest)?;
    let (sites, rest) = read_part(alloc, NameKind::Site, header.site_shape(), rest)?;
    let (rounds, _) = read_part(alloc, NameKind::Round, header.round_shape(), rest)?;
    Ok(PartNames {
        players,
        events,
        sites,
        rounds,
    })
}
