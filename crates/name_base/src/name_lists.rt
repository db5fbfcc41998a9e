//! The names of a base: a set of each kind.
ghost use Rattle.std.specs.Prelude.{◌≡◌, ◌≤◌, ◌<◌, ◌↔◌, Some, None, length, take, slice_get, unwrap_or, IfOk, OnOk, OnErr, IsErrOf};
ghost use Rattle.name_base.specs.NameLists.{no_names, of_kind, with_kind, with_name, limit_of, id_in, IsName, AreSound};

use crate::NameKind;
use crate::name_set::NameSet;
use std::alloc::{AllocError, AllocFailed, Global};
use std::marker::Model;
use thiserror::Error;

/// Why a name was not added.
#[derive(Clone, Copy, Debug, Drop, PartialEq, Eq, Error)]
pub enum AddError {
    /// The name is new, and its kind has as many names as a base holds.
    #[error("no room for a further name of this kind")]
    Full,
    #[error("out of memory")]
    Memory,
}

impl From<AllocError> for AddError {
    ghost use Rattle.std.specs.Prelude.{◌≡◌};
    ghost use Rattle.name_base.specs.declared.name_lists.AddError.TheVariants.{Memory};

    ghost from_gives = { λ _ e. e ≡ Memory };

    fn from(_: AllocError) -> Self {
        AddError::Memory
    }
}

impl<T: Drop> From<AllocFailed<T>> for AddError {
    ghost use Rattle.std.specs.Prelude.{◌≡◌};
    ghost use Rattle.name_base.specs.declared.name_lists.AddError.TheVariants.{Memory};

    ghost from_gives = { λ _ e. e ≡ Memory };

    fn from(_: AllocFailed<T>) -> Self {
        AddError::Memory
    }
}

/// The names of the players, events, sites and rounds of a base, each once in its kind.
#[derive(Drop)]
pub struct Names {
    players: NameSet,
    events: NameSet,
    sites: NameSet,
    rounds: NameSet,
}

impl Model for Names {
    ghost use Rattle.name_base.specs.NameLists.{NameLists, AreSound};

    ghost Value = { NameLists };

    ghost view = { λ n. record { players = n.players; events = n.events; sites = n.sites; rounds = n.rounds } };

    ghost invariant = { λ n. AreSound (record { players = n.players; events = n.events; sites = n.sites; rounds = n.rounds }) };
}

impl Names {
    /// No names.
    pub fn new(alloc: Global) -> Self
        ensures none { result ≡ no_names }
    {
        Names {
            players: NameSet::new(alloc),
            events: NameSet::new(alloc),
            sites: NameSet::new(alloc),
            rounds: NameSet::new(alloc),
        }
    }

    /// The names of these sets.
    pub(crate) fn from_sets(
        players: NameSet,
        events: NameSet,
        sites: NameSet,
        rounds: NameSet,
    ) -> Self
        requires { AreSound (record { players = players; events = events; sites = sites; rounds = rounds }) }
        ensures { result ≡ record { players = players; events = events; sites = sites; rounds = rounds } }
    {
        Names {
            players,
            events,
            sites,
            rounds,
        }
    }

    pub(crate) fn set(&self, kind: NameKind) -> &NameSet
        ensures { result.now ≡ of_kind kind self.now }
    {
        match kind {
            NameKind::Player => &self.players,
            NameKind::Event => &self.events,
            NameKind::Site => &self.sites,
            NameKind::Round => &self.rounds,
        }
    }

    /// The number of names of a kind.
    pub fn count(&self, kind: NameKind) -> u32
        ensures count { result ≡ length (of_kind kind self.now) }
        ensures sound { AreSound self.now }
    {
        // Reading the field makes the type's invariant known, which gives the clause `sound`.
        let _ = &self.players;
        self.set(kind).len()
    }

    /// The id of a name, if the name is there.
    pub fn id_of(&self, kind: NameKind, name: &[u8]) -> Option<u32>
        ensures id { result ≡ id_in (of_kind kind self.now) name.now }
    {
        self.set(kind).id_of(name)
    }

    /// The name with an id.
    pub fn name_of(&self, kind: NameKind, id: u32) -> &[u8]
        requires below { id < length (of_kind kind self.now) }
        ensures name { slice_get (of_kind kind self.now) id ≡ Some result.now }
    {
        self.set(kind).name_of(id)
    }

    /// The id of a name. A new name comes last, so that its id is the count before.
    ///
    /// # Errors
    ///
    /// `Full` if the name is new and its kind has as many names as a base holds, and `Memory`. The names are then as they were.
    pub fn add(&mut self, alloc: Global, kind: NameKind, name: &[u8]) -> Result<u32, AddError>
        requires name { IsName name.now }
        ensures id { IfOk result (λ id. id ≡ unwrap_or (id_in (of_kind kind self.old) name.now) (length (of_kind kind self.old))) }
        ensures names { OnOk result (self.new ≡ with_kind kind self.old (with_name (of_kind kind self.old) name.now)) }
        ensures full { IsErrOf result AddError.Full
            ↔ ((id_in (of_kind kind self.old) name.now ≡ None) × (length (of_kind kind self.old) ≡ limit_of kind)) }
        ensures unchanged { OnErr result (self.new ≡ self.old) }
        // A name that is there is found, whatever memory is left.
        ensures absent { OnErr result (id_in (of_kind kind self.old) name.now ≡ None) }
    {
        let limit = kind.limit();
        match kind {
            NameKind::Player => self.players.add(alloc, limit, name),
            NameKind::Event => self.events.add(alloc, limit, name),
            NameKind::Site => self.sites.add(alloc, limit, name),
            NameKind::Round => self.rounds.add(alloc, limit, name),
        }
    }

    /// Keeps of one kind the names whose id is below `count`, and leaves the other kinds as they are.
    pub fn cut(&mut self, kind: NameKind, count: u32)
        requires within { count ≤ length (of_kind kind self.old) }
        ensures kept { self.new ≡ with_kind kind self.old (take count (of_kind kind self.old)) }
    {
        match kind {
            NameKind::Player => self.players.truncate(count),
            NameKind::Event => self.events.truncate(count),
            NameKind::Site => self.sites.truncate(count),
            NameKind::Round => self.rounds.truncate(count),
        }
    }
}
