//! The library of a program as far as names go (Ada RM 2012, 10.1).

ghost use Rattle.std.specs.Prelude.{IfOk};
ghost use Rattle.ada_library.specs.LibraryView.{IsLibraryOf, IsNamed, IsFirstBody, IsLeadingBack, IsOrder, IsBodyNumber, IsInstanceNumber};

use crate::bodies::BodyNumbers;
use crate::dependencies::Dependencies;
use crate::instances::InstanceNumbers;
use crate::items::both;
use crate::unit_names::UnitNames;
use ada_syntax::Unit;
use std::alloc::{AllocError, Global};

/// The library: its units by name, what they name in `with`, and the numbers of bodies and instances.
pub struct Library {
    pub(crate) names: UnitNames,
    pub(crate) dependencies: Dependencies,
    pub(crate) bodies: BodyNumbers,
    pub(crate) instances: InstanceNumbers,
}

// Written out: a derived drop is proved anew in each crate above.
impl Drop for Library {
    fn drop(self) {
        let Library {
            names: _,
            dependencies: _,
            bodies: _,
            instances: _,
        } = self;
    }
}

impl Library {
    /// The library of these units, whatever names are predefined.
    pub fn new(alloc: Global, units: &[Unit]) -> Result<Library, AllocError>
        ensures { IfOk result (IsLibraryOf units.now) }
    {
        let names = UnitNames::new(alloc, units)?;
        let dependencies = Dependencies::new(alloc, &names.units, units);
        let graph = both(Ok(names), dependencies);
        let bodies = BodyNumbers::new(alloc, units);
        let numbers = both(bodies, InstanceNumbers::new(alloc, units));
        let ((names, dependencies), (bodies, instances)) = both(graph, numbers)?;
        Ok(Library {
            names,
            dependencies,
            bodies,
            instances,
        })
    }

    /// The unit with a name, in lower case, that others may name: no body of a package.
    pub fn unit_named(&self, name: &[u8]) -> Option<u32>
        ensures { IsNamed self.now name.now result }
    {
        self.names.units.find(name)
    }

    /// The first body of a package with this name in lower case.
    pub(crate) fn package_body(&self, name: &[u8]) -> Option<u32>
        ensures { IsFirstBody self.now name.now result }
    {
        self.names.package_bodies.find(name)
    }

    /// Whether a unit leads back to another by what units name in `with`.
    pub(crate) fn leads_back(&self, alloc: Global, from: u32, to: u32) -> Result<bool, AllocError>
        ensures { IfOk result (IsLeadingBack self.now from to) }
    {
        self.dependencies.leads_back(alloc, from, to)
    }

    /// Units in the order in which they depend on each other: those on a cycle, and those that lead to
    /// one, are not in it.
    pub fn order(&self) -> &[u32]
        ensures { IsOrder self.now result.now }
    {
        self.dependencies.order.as_slice()
    }

    /// The number of a body by the names, in lower case, of its package and its own: its place among
    /// all. Of a library subprogram both names are its own.
    pub fn body_number(
        &self,
        alloc: Global,
        package_name: &[u8],
        name: &[u8],
    ) -> Result<Option<u32>, AllocError>
        ensures { IfOk result (IsBodyNumber self.now package_name.now name.now) }
    {
        self.bodies.find(alloc, package_name, name)
    }

    /// The number of the instance that this unit is.
    pub fn instance_number(&self, unit: u32) -> u32
        ensures { IsInstanceNumber self.now unit result }
    {
        self.instances.of(unit)
    }
}
