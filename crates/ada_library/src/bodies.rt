//! The numbers of bodies (Ada RM 2012, 6.3).

ghost use Rattle.std.specs.Prelude.{◌≡◌, [], ◌∷◌, IfOk, OnOk};
ghost use Rattle.std.specs.Map.{lookup};
ghost use Rattle.ada_rules.specs.Entities.{key as key_of};
ghost use Rattle.ada_rules.specs.Library.{body_names, bodies_of_item, all_bodies};
ghost use Rattle.ada_rules.specs.Subprograms.{is_body};
ghost use Rattle.ada_library.specs.BodyNumbering.{body_named, AddsBodies, AreBodies};

use crate::items::both;
use ada_entities::key;
use ada_syntax::{BodyItem, Identifier, LibraryItem, Unit};
use cov_base::number_behind;
use indexmap::IndexMap;
use std::alloc::{AllocError, Global};
use std::marker::Model;

/// The numbers of bodies, by the names of the package and of the subprogram in lower case: their places
/// among all in the order of the text. Of a library subprogram both names are its own, and of two bodies
/// with the same names it is the first.
pub struct BodyNumbers {
    table: IndexMap<(Vec<u8>, Vec<u8>), u32>,
    count: u32,
}

// Written out: a derived drop is proved anew in each crate above.
impl Drop for BodyNumbers {
    fn drop(self) {
        let BodyNumbers { table: _, count: _ } = self;
    }
}

impl Model for BodyNumbers {
    ghost use Rattle.ada_library.specs.BodyTable.{BodyTable};
    ghost use Rattle.ada_library.specs.BodyView.{table_of};

    ghost Value = { BodyTable };

    ghost view = { λ b. table_of b.table.entries b.count };
}

impl BodyNumbers {
    /// Counts a body, and gives its names this number unless they have one.
    fn add(
        &mut self,
        alloc: Global,
        package_name: &Identifier,
        name: &Identifier,
    ) -> Result<(), AllocError>
        ensures { OnOk result (AddsBodies self.old (body_named package_name.now name.now ∷ []) self.new) }
    {
        let number = self.count;
        self.count = number_behind(number)?;
        let names = both(key(alloc, package_name), key(alloc, name))?;
        if self.table.get(&names).is_some() {
            return Ok(());
        }
        self.table.insert(names, number)?;
        Ok(())
    }

    /// Counts what stands in the body of a package, where it is a body.
    fn add_item(
        &mut self,
        alloc: Global,
        package_name: &Identifier,
        item: &BodyItem,
    ) -> Result<(), AllocError>
        ensures { OnOk result (AddsBodies self.old (body_names (key_of package_name.now) (item.now ∷ [])) self.new) }
    {
        match item {
            BodyItem::Body(body) => self.add(alloc, package_name, &body.specification.name),
            BodyItem::Declared(_) => Ok(()),
        }
    }

    /// Counts the bodies in the body of a package.
    fn add_items(
        &mut self,
        alloc: Global,
        package_name: &Identifier,
        items: &[BodyItem],
    ) -> Result<(), AllocError>
        ensures { OnOk result (AddsBodies self.old (body_names (key_of package_name.now) items.now) self.new) }
    {
        for item in items {
            self.add_item(alloc, package_name, item)?;
        }
        Ok(())
    }

    /// Counts the bodies of a unit.
    fn add_unit(&mut self, alloc: Global, item: &LibraryItem) -> Result<(), AllocError>
        ensures { OnOk result (AddsBodies self.old (bodies_of_item item.now) self.new) }
    {
        match item {
            LibraryItem::PackageBody(body) => {
                self.add_items(alloc, &body.name, body.items.as_slice())
            }
            LibraryItem::Subprogram(body) => {
                let name = &body.specification.name;
                self.add(alloc, name, name)
            }
            LibraryItem::Package(_) | LibraryItem::Instance(_) => Ok(()),
        }
    }

    /// The numbers of the bodies of these units.
    pub fn new(alloc: Global, units: &[Unit]) -> Result<BodyNumbers, AllocError>
        ensures { IfOk result (AreBodies (all_bodies units.now)) }
    {
        let mut bodies = BodyNumbers {
            table: IndexMap::new(alloc),
            count: 0,
        };
        for unit in units {
            bodies.add_unit(alloc, &unit.item)?;
        }
        Ok(bodies)
    }

    /// The number of a body by the names, in lower case, of its package and its own.
    pub fn find(
        &self,
        alloc: Global,
        package_name: &[u8],
        name: &[u8],
    ) -> Result<Option<u32>, AllocError>
        ensures { IfOk result (λ o. o ≡ lookup (is_body package_name.now name.now) self.now.numbers) }
    {
        let package_name = Vec::from_slice(alloc, package_name);
        let names = both(package_name, Vec::from_slice(alloc, name))?;
        Ok(self.table.get(&names).copied())
    }
}
