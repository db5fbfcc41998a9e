//! The names of one kind.
ghost use Rattle.std.specs.Prelude.{ℕ, ◌≡◌, ◌≤◌, ◌<◌, ◌↔◌, ◌+◌, [], ◌∷◌, ◌++◌, Some, None, length, map, take, slice_get, unwrap_or, IfOk, OnOk, OnErr, IsErrOf, IsSome};
ghost use Rattle.name_base.specs.NameLists.{AreNames, IsName, id_in, with_name};

use crate::AddError;
use indexmap::IndexSet;
use std::alloc::Global;
use std::marker::Model;

/// Names without repeats; a name's place is its id.
#[derive(Drop)]
pub(crate) struct NameSet {
    names: IndexSet<Vec<u8>>,
}

impl Model for NameSet {
    ghost use Rattle.std.specs.Prelude.{ℕ, List, map};
    ghost use Rattle.name_base.specs.NameLists.{AreNames};

    ghost Value = { List (List ℕ) };

    ghost view = { λ s. map (λ v. v.items) s.names.keys };

    ghost invariant = { λ s. AreNames 1048576 (map (λ v. v.items) s.names.keys) };
}

impl NameSet {
    /// No names.
    pub(crate) fn new(alloc: Global) -> Self
        ensures { result ≡ [] }
    {
        NameSet {
            names: IndexSet::new(alloc),
        }
    }

    /// The names, each with its place as its id.
    pub(crate) fn of(names: IndexSet<Vec<u8>>) -> Self
        requires { AreNames 1048576 (map (λ v. v.items) names.keys) }
        ensures { result ≡ map (λ v. v.items) names.keys }
    {
        NameSet { names }
    }

    /// The number of names.
    pub(crate) fn len(&self) -> u32
        ensures len { result ≡ length self.now }
        ensures sound { AreNames 1048576 self.now }
    {
        self.names.len() as u32
    }

    /// The id of a name, if it is there.
    pub(crate) fn id_of(&self, name: &[u8]) -> Option<u32>
        ensures { result ≡ id_in self.now name.now }
    {
        match self.names.get_index_of(name) {
            None => None,
            Some(place) => Some(place as u32),
        }
    }

    /// The name with an id.
    pub(crate) fn name_of(&self, id: u32) -> &[u8]
        requires { id < length self.now }
        ensures { slice_get self.now id ≡ Some result.now }
    {
        self.names.as_slice()[id as usize].as_slice()
    }

    /// The id of a name, which comes last if it is new.
    pub(crate) fn add(&mut self, alloc: Global, limit: u32, name: &[u8]) -> Result<u32, AddError>
        requires name { IsName name.now }
        requires limit { limit ≤ 1048576 }
        ensures id { IfOk result (λ id. id ≡ unwrap_or (id_in self.old name.now) (length self.old)) }
        ensures names { OnOk result (self.new ≡ with_name self.old name.now) }
        ensures full { IsErrOf result AddError.Full ↔ ((id_in self.old name.now ≡ None) × (limit ≤ length self.old)) }
        ensures unchanged { OnErr result (self.new ≡ self.old) }
        ensures absent { OnErr result (id_in self.old name.now ≡ None) }
        ensures sound { AreNames limit self.old → AreNames limit self.new }
    {
        if let Some(id) = self.id_of(name) {
            return Ok(id);
        }
        let id = self.len();
        if id >= limit {
            return Err(AddError::Full);
        }
        self.names.insert(Vec::from_slice(alloc, name)?)?;
        Ok(id)
    }

    /// Keeps the names whose id is below `count`.
    pub(crate) fn truncate(&mut self, count: u32)
        ensures names { self.new ≡ take count self.old }
        ensures sound { (limit : ℕ) → AreNames limit self.old → AreNames limit self.new }
    {
        self.names.truncate(count as usize);
    }
}
