//! The names that a files object was told to work on.
ghost use Rattle.std.specs.Prelude.{◌≡◌, [], ◌∷◌, ◌++◌, OnOk, OnErr, IfOk};
ghost use Rattle.base_files.specs.Chosen.{Choice, choice};

use std::alloc::{AllocError, Global};
use std::marker::Model;

/// The names that `choose` was given, the last one last.
#[derive(Drop)]
pub struct Choices {
    list: Vec<Chosen>,
}

/// A name that `choose` was given, and whether absent files were to be made.
#[derive(Drop)]
struct Chosen {
    name: String,
    create: bool,
}

impl Model for Chosen {
    ghost use Rattle.std.specs.String.{string_bytes};
    ghost use Rattle.base_files.specs.Chosen.{Choice};

    ghost Value = { Choice };

    ghost view = { λ chosen. record { name = string_bytes chosen.name; create = chosen.create } };
}

impl Model for Choices {
    ghost use Rattle.std.specs.Prelude.{List};
    ghost use Rattle.base_files.specs.Chosen.{Choice};

    ghost Value = { List Choice };

    ghost view = { λ choices. choices.list.items };
}

impl Choices {
    /// No name was chosen yet.
    pub fn new(alloc: Global) -> Choices
        ensures { result ≡ [] }
    {
        Choices {
            list: Vec::new(alloc),
        }
    }

    /// Adds a name at the end.
    pub fn add(&mut self, name: &str, create: bool) -> Result<(), AllocError>
        ensures added { OnOk result (self.new ≡ self.old ++ choice name.now create ∷ []) }
        ensures unchanged { OnErr result (self.new ≡ self.old) }
    {
        let name = String::from_str(*self.list.allocator(), name)?;
        self.list.push(Chosen { name, create })?;
        Ok(())
    }
}
