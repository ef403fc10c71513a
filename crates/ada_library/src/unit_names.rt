//! The units of a library by name (Ada RM 2012, 10.1.1).

ghost use Rattle.std.specs.Prelude.{IfOk, OnOk};
ghost use Rattle.ada_rules.specs.Library as rules;
ghost use Rattle.ada_library.specs.NameTable.{Adds, with_body};
ghost use Rattle.ada_library.specs.UnitNaming.{AreNames, AddsNames};

use crate::items::item_name;
use crate::names::Names;
use ada_entities::key;
use ada_syntax::{LibraryItem, Unit};
use cov_base::numbered;
use std::alloc::{AllocError, Global};

/// The numbers of units by name: of those that others may name, and of bodies of packages. Of two with
/// one name it is the first.
pub struct UnitNames {
    pub(crate) units: Names,
    pub(crate) package_bodies: Names,
}

// Written out: a derived drop is proved anew in each crate above.
impl Drop for UnitNames {
    fn drop(self) {
        let UnitNames {
            units: _,
            package_bodies: _,
        } = self;
    }
}

impl UnitNames {
    /// Adds a unit by its number.
    fn add(&mut self, alloc: Global, number: u32, item: &LibraryItem) -> Result<(), AllocError>
        ensures unit { OnOk result (Adds self.old.units (rules.with_unit number item.now) self.new.units) }
        ensures body { OnOk result (Adds self.old.package_bodies (with_body number item.now) self.new.package_bodies) }
    {
        let name = key(alloc, item_name(item))?;
        match item {
            LibraryItem::PackageBody(_) => self.package_bodies.add(name, number),
            LibraryItem::Package(_) | LibraryItem::Instance(_) | LibraryItem::Subprogram(_) => {
                self.units.add(name, number)
            }
        }
    }

    /// Adds these units by their places.
    fn add_all(&mut self, alloc: Global, units: &[Unit]) -> Result<(), AllocError>
        ensures { OnOk result (AddsNames self.old units.now self.new) }
    {
        for (index, unit) in units.iter().enumerate() {
            self.add(alloc, numbered(index)?, &unit.item)?;
        }
        Ok(())
    }

    /// The names of these units.
    pub fn new(alloc: Global, units: &[Unit]) -> Result<UnitNames, AllocError>
        ensures { IfOk result (AreNames units.now) }
    {
        let mut names = UnitNames {
            units: Names::new(alloc),
            package_bodies: Names::new(alloc),
        };
        let added = names.add_all(alloc, units);
        added.and(Ok(names))
    }
}
