//! Numbers by name (Ada RM 2012, 2.3).

ghost use Rattle.std.specs.Prelude.{◌≡◌, [], ◌∷◌, OnOk};
ghost use Rattle.ada_rules.specs.Library.{unit_named};
ghost use Rattle.ada_library.specs.NameTable.{Adds};

use indexmap::IndexMap;
use std::alloc::{AllocError, Global};
use std::marker::Model;

/// Numbers by name in lower case. A name has the number that it was given first.
pub struct Names {
    table: IndexMap<Vec<u8>, u32>,
}

// Written out: a derived drop is proved anew in each crate above.
impl Drop for Names {
    fn drop(self) {
        let Names { table: _ } = self;
    }
}

impl Model for Names {
    ghost use Rattle.std.specs.Prelude.{ℕ, List, map};
    ghost use Rattle.ada_library.specs.NameView.{entry_of};

    ghost Value = { List (List ℕ × ℕ) };

    ghost view = { λ n. map entry_of n.table.entries };
}

impl Names {
    /// No names.
    pub fn new(alloc: Global) -> Names
        ensures { result ≡ [] }
    {
        Names {
            table: IndexMap::new(alloc),
        }
    }

    /// The number of a name in lower case.
    pub fn find(&self, name: &[u8]) -> Option<u32>
        ensures { result ≡ unit_named self.now name.now }
    {
        self.table.get(name).copied()
    }

    /// Gives a name in lower case this number, unless it has one.
    pub fn add(&mut self, name: Vec<u8>, number: u32) -> Result<(), AllocError>
        ensures { OnOk result (Adds self.old (λ rest. (name.items, number) ∷ rest) self.new) }
    {
        if self.find(name.as_slice()).is_some() {
            return Ok(());
        }
        self.table.insert(name, number)?;
        Ok(())
    }
}
