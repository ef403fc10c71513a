//! Regions of declarations (Ada RM 2012, 8.1, 8.3).

ghost use Rattle.std.specs.Prelude.{◌≡◌, [], length, option_map, slice_get, IfOk, IfErr, OnOk};
ghost use Rattle.ada_rules.specs.Entities as rules;
ghost use Rattle.ada_entities.specs.EntityViews.{Tables, entity_of, region_of};
ghost use Rattle.ada_entities.specs.RegionCode.{with_entry, Sees, Declares, RefusesName, Redefines};

use crate::entity::Entity;
use crate::fault::{Refusal, refused};
use ada_syntax::Identifier;
use cov_base::Failure;
use indexmap::IndexMap;
use std::alloc::{AllocError, Global};
use std::marker::Model;

/// A region: its declarations by name in lower case, in order, each name once.
pub struct Region {
    table: IndexMap<Vec<u8>, Entity>,
}

// Written out: a derived drop is proved anew in each crate above.
impl Drop for Region {
    fn drop(self) {
        let Region { table: _ } = self;
    }
}

impl Model for Region {
    ghost use Rattle.std.specs.Prelude.{ℕ, List, map};
    ghost use Rattle.ada_entities.specs.declared.entity.Entity.{Entity};
    ghost use Rattle.ada_entities.specs.RegionView.{entry_of};

    ghost Value = { List (List ℕ × Entity) };

    ghost view = { λ r. map entry_of r.table.entries };
}

/// An identifier in lower case: what identifiers are compared by (RM 2.3).
pub fn key(alloc: Global, identifier: &Identifier) -> Result<Vec<u8>, AllocError>
    ensures { IfOk result (λ v. v.items ≡ rules.key identifier.now) }
{
    identifier.text.as_slice().to_ascii_lowercase(alloc)
}

impl Region {
    /// A region without declarations.
    pub fn new(alloc: Global) -> Region
        ensures { result ≡ [] }
    {
        Region {
            table: IndexMap::new(alloc),
        }
    }

    /// The same declarations once more.
    pub fn copied(&self) -> Result<Region, AllocError>
        ensures { IfOk result (λ r. r ≡ self.now) }
    {
        Ok(Region {
            table: self.table.clone()?,
        })
    }

    /// What a name, in lower case, denotes in the region.
    pub fn find(&self, name: &[u8]) -> Option<Entity>
        ensures { (k : Tables) → option_map (entity_of k) result ≡ rules.entity_of name.now (region_of k self.now) }
    {
        self.table.get(name).copied()
    }

    /// How many names it declares.
    pub fn len(&self) -> usize
        ensures { result ≡ length self.now }
    {
        self.table.len()
    }

    /// What the declaration at this place declares; none where there are not as many.
    pub fn at(&self, place: usize) -> Option<Entity>
        ensures { result ≡ option_map (λ e. e.1) (slice_get self.now place) }
    {
        match self.table.get_index(place) {
            Some((_, entity)) => Some(*entity),
            None => None,
        }
    }

    /// Lets a name, in lower case, denote this: at its place where it is there, and else behind the
    /// others.
    fn put(&mut self, name: Vec<u8>, entity: Entity) -> Result<(), AllocError>
        ensures { OnOk result (self.new ≡ with_entry name.items entity self.old) }
    {
        self.table.insert(name, entity)?;
        Ok(())
    }

    /// Lets a name, in lower case, denote this behind the others, unless the region declares it already
    /// (RM 10.1.6).
    pub fn see(&mut self, name: Vec<u8>, entity: Entity) -> Result<(), AllocError>
        ensures { OnOk result (Sees self.old name.items entity self.new) }
    {
        if self.find(name.as_slice()).is_some() {
            return Ok(());
        }
        self.put(name, entity)
    }

    /// Adds a declaration behind the others. Where the name is declared already, the declaration is
    /// refused at it.
    pub fn declare(
        &mut self,
        alloc: Global,
        name: &Identifier,
        entity: Entity,
    ) -> Result<(), Failure<Refusal>>
        ensures declared { OnOk result (Declares self.old name.now entity self.new) }
        ensures refused { IfErr result (RefusesName self.old name.now entity) }
    {
        let lower = key(alloc, name)?;
        if self.find(lower.as_slice()).is_some() {
            return Err(refused(name.pos));
        }
        self.put(lower, entity)?;
        Ok(())
    }

    /// Lets a name of the region denote something else: what its declaration declares, where it stood
    /// hidden so far. A name that is not declared here stays so.
    pub fn redefine(
        &mut self,
        alloc: Global,
        name: &Identifier,
        entity: Entity,
    ) -> Result<(), AllocError>
        ensures { OnOk result (Redefines self.old (rules.key name.now) entity self.new) }
    {
        let lower = key(alloc, name)?;
        if self.find(lower.as_slice()).is_none() {
            return Ok(());
        }
        self.put(lower, entity)
    }
}
