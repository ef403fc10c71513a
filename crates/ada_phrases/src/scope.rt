//! Where a construct is looked at (Ada RM 2012, 8.1 to 8.3).

ghost use Rattle.std.specs.Prelude.{◌≡◌, IfOk};
ghost use Rattle.ada_rules.specs.Entities.{key};
ghost use Rattle.ada_rules.specs.Expressions.{is_own};
ghost use Rattle.ada_phrases.specs.Scopes.{IsVisible, IsPartOfUnit, IsPartOfTestIo};

use ada_entities::{Entity, Regions, Routines, Types, Units, key, shown, test_io};
use ada_syntax::Identifier;
use std::alloc::{AllocError, Global};

/// The two steps: the rules on names of all units come before those on types.
#[derive(Clone, Copy)]
pub enum Step {
    Naming,
    Typing,
}

/// Where a construct stands: the step, the tables of types, subprograms and units, the regions round
/// it, and the package in whose text it is, by the number of its unit. Of the regions the outermost is
/// what the unit sees of the library, and the next one is the package's text.
#[derive(Clone, Copy)]
pub struct Scope<'a> {
    pub step: Step,
    pub types: &'a Types,
    pub routines: &'a Routines,
    pub units: &'a Units,
    pub regions: &'a Regions,
    pub own_package: Option<u32>,
}

/// The depth of a package's text among the regions.
const TEXT_DEPTH: usize = 1;

/// Whether a unit is the package in whose text a construct stands.
fn is_own(own_package: Option<u32>, unit: u32) -> bool
    ensures { result ≡ is_own own_package unit }
{
    match own_package {
        Some(own) => own == unit,
        None => false,
    }
}

impl Scope<'_> {
    /// What an identifier denotes (RM 8.3).
    pub fn visible(
        &self,
        alloc: Global,
        identifier: &Identifier,
    ) -> Result<Option<Entity>, AllocError>
        ensures { IfOk result (λ o. IsVisible self.now (key identifier.now) o) }
    {
        let name = key(alloc, identifier)?;
        Ok(self.regions.visible(name.as_slice()))
    }

    /// A part of what a unit declares, by its name in lower case: in a package's own text of what it
    /// has declared so far (RM 4.1.3).
    pub fn part_of_unit(&self, unit: u32, name: &[u8]) -> Option<Entity>
        ensures { IsPartOfUnit self.now unit name.now result }
    {
        if is_own(self.own_package, unit) {
            return shown(self.regions.find_at(TEXT_DEPTH, name));
        }
        self.units.part_of(self.types, unit, name)
    }

    /// A declaration of `Test_IO`, by its name in lower case.
    pub fn part_of_test_io(&self, name: &[u8]) -> Option<Entity>
        ensures { IsPartOfTestIo self.now name.now result }
    {
        test_io(name)
    }
}
