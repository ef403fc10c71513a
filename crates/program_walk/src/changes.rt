//! Changes of the symbol table (Ada RM 2012, 3.1, 6.1, 8.1, 8.3).

ghost use Rattle.std.specs.Prelude.{◌≡◌, slice_get, IfOk, IfErr, OnOk};
ghost use Rattle.std.specs.Option.{option_copied};
ghost use Rattle.ada_rules.specs.Entities.{key};
ghost use Rattle.ada_entities.specs.declared.entity.Entity.TheVariants as entity;
ghost use Rattle.ada_entities.specs.RegionCode.{RefusesName, innermost};
ghost use Rattle.program_walk.specs.Alike.{IsKnownRegion};
ghost use Rattle.program_walk.specs.Alone.{IsRoutineAlone};
ghost use Rattle.program_walk.specs.Leading.{IsUnitEntity};
ghost use Rattle.program_walk.specs.Changes.{Grows, ChangesInside, DeclaresInside, RedefinesInside, IsOpen, HidesAll, RefusesNames, Opens, Reopens, Closes, Continues, ShowsUnit, IsFresh, IsTypeOf, IsInstance, IsSubprogram, IsInOwnText, IsNumbered, ShowsKnown};

use crate::extent::Extent;
use crate::symbols::Symbols;
use ada_entities::{
    Definition, Entity, Interface, Refusal, Region, Regions, Routine, Routines, ScalarType, Types,
    Units, key,
};
use ada_syntax::Identifier;
use cov_base::{Failure, Seq};
use std::alloc::{AllocError, Global};

/// The depth of a package's text among the regions.
const TEXT_DEPTH: usize = 1;

impl Symbols {
    /// The symbols before any of so many units was looked at: the subprograms of `Test_IO` alone. No
    /// instance has a number above that of units.
    pub fn new(alloc: Global, units: usize) -> Result<Symbols, AllocError>
        ensures { IfOk result (IsFresh units) }
    {
        let types = Types::new(alloc, units)?;
        let routines = Routines::new(alloc)?;
        let extent = Extent::new(alloc, units)?;
        let units = Units::new(alloc, units)?;
        Ok(Symbols {
            types,
            routines,
            units,
            regions: Regions::new(alloc),
            extent,
        })
    }

    /// Opens a region inside the others (RM 8.1).
    pub fn open(&mut self, alloc: Global) -> Result<(), AllocError>
        ensures { OnOk result (Opens self.old self.new) }
    {
        self.regions.open(Region::new(alloc))
    }

    /// Opens a region inside the others that has declarations already.
    pub fn reopen(&mut self, region: Region) -> Result<(), AllocError>
        ensures { OnOk result (IsKnownRegion self.old.extent region → Reopens self.old self.new region) }
    {
        self.regions.open(region)
    }

    /// Closes the innermost region, and takes it out.
    pub fn close(&mut self, alloc: Global) -> Region
        ensures region { result ≡ innermost self.old.regions }
        ensures closed { Closes self.old self.new }
    {
        self.regions.close(alloc)
    }

    /// Declares a name in the innermost region, where it is hidden until its declaration ends; where it is
    /// declared there already, the declaration is refused at it (RM 8.3). After a refusal the innermost
    /// region is gone.
    pub fn declare(&mut self, alloc: Global, name: &Identifier) -> Result<(), Failure<Refusal>>
        ensures declared { OnOk result (DeclaresInside self.old self.new name.now entity.Hidden) }
        ensures inside { OnOk result (ChangesInside self.old self.new) }
        ensures refused { IfErr result (RefusesName (innermost self.old.regions) name.now entity.Hidden) }
        ensures continues { Continues self.old self.new }
    {
        let mut region = self.regions.close(alloc);
        region.declare(alloc, name, Entity::Hidden)?;
        self.regions.open(region)?;
        Ok(())
    }

    /// Hides names in the innermost region, as from the start of their declaration on. Where one of them
    /// is declared there already, the declaration is refused at it (RM 8.3).
    pub fn hide_all(&mut self, alloc: Global, names: &[Identifier]) -> Result<(), Failure<Refusal>>
        ensures hidden { OnOk result (HidesAll self.old self.new names.now) }
        ensures inside { OnOk result (IsOpen self.old → ChangesInside self.old self.new) }
        ensures refused { IfErr result (RefusesNames self.old names.now) }
        ensures continues { Continues self.old self.new }
    {
        for name in names {
            self.declare(alloc, name)?;
        }
        Ok(())
    }

    /// Lets a name of the innermost region denote something else; one that is not declared there stays
    /// so. An entity whose numbers lead nowhere has no memory.
    pub fn redefine(
        &mut self,
        alloc: Global,
        name: &Identifier,
        entity: Entity,
    ) -> Result<(), AllocError>
        ensures redefined { OnOk result (RedefinesInside self.old self.new (key name.now) entity) }
        ensures inside { OnOk result (ChangesInside self.old self.new) }
    {
        if !self.extent.knows_entity(entity) {
            return Err(AllocError);
        }
        let mut region = self.regions.close(alloc);
        region.redefine(alloc, name, entity)?;
        self.regions.open(region)
    }

    /// Adds a composite type, and answers its number (RM 3.6, 3.8). One whose numbers lead nowhere has
    /// no memory.
    pub fn add_type(&mut self, definition: Definition) -> Result<u32, AllocError>
        ensures number { IfOk result (IsTypeOf self.old self.new definition) }
        ensures added { OnOk result (Grows self.old self.new) }
    {
        if !self.extent.knows_definition(&definition) {
            return Err(AllocError);
        }
        let number = self.types.add(definition)?;
        self.extent.types = number as usize + 1;
        Ok(number)
    }

    /// Makes the instance with this number, by what it has for the formal types of its generic (RM 12.3).
    /// Instances have the numbers of the text, and are made in any order. One that was made, or whose
    /// number is more than that of units, has no memory.
    pub fn add_instance(
        &mut self,
        number: u32,
        given: Seq<Option<ScalarType>>,
    ) -> Result<(), AllocError>
        ensures made { OnOk result (IsInstance self.old self.new number given) }
        ensures added { OnOk result (Grows self.old self.new) }
    {
        if !self.extent.awaits(number) {
            return Err(AllocError);
        }
        self.types.add_instance(number, given)?;
        self.extent.make(number);
        Ok(())
    }

    /// Adds a subprogram, and answers its number (RM 6.1). One whose numbers lead nowhere has no memory.
    pub fn add_routine(&mut self, routine: Routine) -> Result<u32, AllocError>
        ensures number { IfOk result (IsSubprogram self.new routine) }
        ensures added { OnOk result (Grows self.old self.new) }
    {
        if !self.extent.knows_subprogram(&routine) {
            return Err(AllocError);
        }
        let number = self.routines.add(routine)?;
        if number as usize != self.extent.routines {
            return Err(AllocError);
        }
        self.extent.routines = number as usize + 1;
        Ok(number)
    }

    /// Lets other units see this of a unit; a number without a unit has no effect. An instance or a
    /// subprogram whose number leads nowhere has no memory.
    pub fn set_unit(&mut self, unit: u32, interface: Interface) -> Result<(), AllocError>
        ensures { OnOk result (ShowsKnown self.old.extent interface → ShowsUnit self.old self.new unit interface) }
    {
        if !self.extent.knows_interface(&interface) {
            return Err(AllocError);
        }
        self.units.set(unit, interface);
        Ok(())
    }

    /// What other units see of the unit with this number; none where there are fewer.
    pub fn interface(&self, unit: u32) -> Option<&Interface>
        ensures { option_copied result ≡ slice_get self.now.units unit }
    {
        self.units.get(unit)
    }

    /// What other units see of all units, by their numbers.
    pub fn units(&self) -> &Units
        ensures { result.now ≡ self.now.units }
    {
        &self.units
    }

    /// The composite types, and what instances have for formal types.
    pub fn types(&self) -> &Types
        ensures { result.now ≡ self.now.types }
    {
        &self.types
    }

    /// What the text of a package has declared so far under a name.
    pub fn find_in_text(
        &self,
        alloc: Global,
        name: &Identifier,
    ) -> Result<Option<Entity>, AllocError>
        ensures { IfOk result (IsInOwnText self.now (key name.now)) }
    {
        let name = key(alloc, name)?;
        Ok(self.regions.find_at(TEXT_DEPTH, name.as_slice()))
    }

    /// The subprogram with this number; none where the number leads nowhere.
    pub fn subprogram(&self, number: u32) -> Option<&Routine>
        ensures { IsNumbered self.now number result }
    {
        if number as usize >= self.extent.routines {
            return None;
        }
        self.routines.get(number)
    }

    /// The same by all that is there: none where there are not as many.
    pub fn routine(&self, number: u32) -> Option<&Routine>
        ensures { IsRoutineAlone self.now number result }
    {
        self.routines.get(number)
    }

    /// What a unit of the library is named as by others: a subprogram, or a package, a generic or an
    /// instance (RM 10.1.6).
    pub fn entity_of_unit(&self, unit: u32) -> Entity
        ensures { IsUnitEntity self.now unit result }
    {
        self.units.entity(unit)
    }
}
