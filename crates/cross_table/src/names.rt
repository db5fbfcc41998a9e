//! The names that play in an event.
ghost use Rattle.std.specs.Prelude.{◌≡◌, ◌<◌, [], Some, length, position, slice_get, IfOk, OnOk};
ghost use Rattle.std.specs.Str.{bytes_eq};
ghost use Rattle.cross_table.specs.Crosstable.{with_name};
ghost use Rattle.cross_table.specs.Keeping.{place_of};

use indexmap::IndexSet;
use std::alloc::{AllocError, Global};
use std::marker::Model;

/// Names without repeats, in the order in which they were met.
#[derive(Drop)]
pub(crate) struct Names {
    names: IndexSet<Vec<u8>>,
}

impl Model for Names {
    ghost use Rattle.std.specs.Prelude.{ℕ, ◌<◌, ◌^◌, List, length, map};

    ghost Value = { List (List ℕ) };

    ghost view = { λ n. map (λ v. v.items) n.names.keys };

    ghost invariant = { λ n. length n.names.keys < 2 ^ 32 };
}

impl Names {
    /// No names.
    pub(crate) fn new(alloc: Global) -> Names
        ensures { result ≡ [] }
    {
        Names {
            names: IndexSet::new(alloc),
        }
    }

    /// How many names there are.
    pub(crate) fn len(&self) -> u32
        ensures { result ≡ length self.now }
    {
        self.names.len() as u32
    }

    /// The name at a place.
    pub(crate) fn get(&self, id: u32) -> &[u8]
        requires { id < length self.now }
        ensures { slice_get self.now id ≡ Some result.now }
    {
        self.names.as_slice()[id as usize].as_slice()
    }

    // The place of a name, if it is there.
    fn find(&self, name: &[u8]) -> Option<u32>
        ensures { result ≡ position (bytes_eq name.now) self.now }
    {
        match self.names.get_index_of(name) {
            None => None,
            Some(place) => Some(place as u32),
        }
    }

    /// The place of a name, which comes last if it is new. That there are more names than 32 bits can tell is want of memory too.
    pub(crate) fn add(&mut self, alloc: Global, name: &[u8]) -> Result<u32, AllocError>
        ensures place { IfOk result (λ place. place ≡ place_of self.old name.now) }
        ensures names { OnOk result (self.new ≡ with_name self.old name.now) }
    {
        if let Some(place) = self.find(name) {
            return Ok(place);
        }
        let place = self.len();
        if place >= u32::MAX {
            return Err(AllocError);
        }
        self.names.insert(Vec::from_slice(alloc, name)?)?;
        Ok(place)
    }
}
