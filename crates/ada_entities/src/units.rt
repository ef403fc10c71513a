//! What other units see of a unit (Ada RM 2012, 4.1.3, 7.1, 12.3).

ghost use Rattle.std.specs.Prelude.{◌≡◌, length, option_map, replicate, set, slice_get, IfOk};
ghost use Rattle.std.specs.Option.{option_copied};
ghost use Rattle.ada_rules.specs.Entities as rules;
ghost use Rattle.ada_entities.specs.declared.units.Interface.TheVariants as interface;
ghost use Rattle.ada_entities.specs.TypeTable.{tables};
ghost use Rattle.ada_entities.specs.EntityViews.{Tables, entity_of};
ghost use Rattle.ada_entities.specs.UnitViews.{IsPart, IsPartIn, IsPartOfText, IsPartThrough, IsPartOfGeneric, IsPartOfInstance, IsSeenPart, IsEntityOf, IsUnit};

use crate::composite::Types;
use crate::entity::{Entity, RoutineName};
use crate::region::Region;
use std::alloc::{AllocError, Global};
use std::marker::Model;
use std::mem;

/// What other units see of a unit.
pub enum Interface {
    /// Nothing: it was not looked at yet.
    Unknown,
    /// The declarations of a package (RM 7.1).
    Package(Region),
    /// The formals of a generic, and with them its declarations (RM 12.1).
    Generic(Region, Region),
    /// An instance: the number of its generic's unit, where it is one, and its own number (RM 12.3).
    Instance(Option<u32>, u32),
    /// A library subprogram.
    Subprogram(RoutineName),
}

// Written out: a derived drop is proved anew in each crate above.
impl Drop for Interface {
    fn drop(self) {
        match self {
            Interface::Unknown => {}
            Interface::Package(_) => {}
            Interface::Generic(_, _) => {}
            Interface::Instance(_, _) => {}
            Interface::Subprogram(_) => {}
        }
    }
}

/// The units of a library, by their numbers.
pub struct Units {
    interfaces: Vec<Interface>,
}

// Written out: a derived drop is proved anew in each crate above.
impl Drop for Units {
    fn drop(self) {
        let Units { interfaces: _ } = self;
    }
}

impl Model for Units {
    ghost use Rattle.std.specs.Prelude.{List};
    ghost use Rattle.ada_entities.specs.declared.units.Interface.{Interface};

    ghost Value = { List Interface };

    ghost view = { λ u. u.interfaces.items };
}

/// What is visible of what a name denotes: nothing, where its own declaration hides it (RM 8.3).
pub fn shown(entity: Option<Entity>) -> Option<Entity>
    ensures { (k : Tables) → option_map (entity_of k) result ≡ rules.shown (option_map (entity_of k) entity) }
{
    match entity {
        Some(Entity::Hidden) => None,
        _ => entity,
    }
}

/// A part of a generic as it is seen through an instance.
fn part_seen(types: &Types, instance: u32, part: Option<Entity>) -> Option<Entity>
    ensures { IsSeenPart (tables types.now) instance part result }
{
    match part {
        Some(entity) => Some(entity.seen(types, instance)),
        None => None,
    }
}

/// A part of a generic through an instance: one of its declarations, but no formal.
fn part_of_text(
    types: &Types,
    instance: u32,
    formals: &Region,
    declarations: &Region,
    name: &[u8],
) -> Option<Entity>
    ensures { IsPartOfText (tables types.now) instance formals.now declarations.now name.now result }
{
    match formals.find(name) {
        Some(_) => None,
        None => part_seen(types, instance, shown(declarations.find(name))),
    }
}

/// A part of what an interface shows, through an instance of it. Of what is no generic nothing is known.
fn part_through(types: &Types, instance: u32, interface: &Interface, name: &[u8]) -> Option<Entity>
    ensures { IsPartThrough (tables types.now) instance interface.now name.now result }
{
    match interface {
        Interface::Generic(formals, declarations) => {
            part_of_text(types, instance, formals, declarations, name)
        }
        Interface::Unknown
        | Interface::Package(_)
        | Interface::Instance(_, _)
        | Interface::Subprogram(_) => Some(Entity::Component),
    }
}

/// What an interface is named as by other units, where its unit has this number.
fn entity_of(unit: u32, interface: &Interface) -> Entity
    ensures { IsEntityOf unit interface.now result }
{
    match interface {
        Interface::Subprogram(routine) => Entity::Routine(*routine),
        Interface::Unknown
        | Interface::Package(_)
        | Interface::Generic(_, _)
        | Interface::Instance(_, _) => Entity::Unit(unit),
    }
}

impl Units {
    /// So many units, at none of which anything was looked at yet.
    pub fn new(alloc: Global, count: usize) -> Result<Units, AllocError>
        ensures { IfOk result (λ u. u ≡ replicate count interface.Unknown) }
    {
        let mut interfaces = Vec::new(alloc);
        for _ in 0..count {
            interfaces.push(Interface::Unknown)?;
        }
        Ok(Units { interfaces })
    }

    /// Lets other units see this of a unit; a number without a unit has no effect.
    pub fn set(&mut self, unit: u32, interface: Interface)
        ensures { self.new ≡ set self.old unit interface }
    {
        let mut other = interface;
        if let Some(seen) = self.interfaces.get_mut(unit as usize) {
            mem::swap(seen, &mut other);
        }
        drop(other);
    }

    /// What other units see of the unit with this number; none where there are fewer.
    pub fn get(&self, unit: u32) -> Option<&Interface>
        ensures { option_copied result ≡ slice_get self.now unit }
    {
        self.interfaces.get(unit as usize)
    }

    /// How many units there are.
    pub fn len(&self) -> usize
        ensures { result ≡ length self.now }
    {
        self.interfaces.as_slice().len()
    }

    /// What a unit of the library is named as by others: a subprogram, or a package, a generic or an
    /// instance.
    pub fn entity(&self, unit: u32) -> Entity
        ensures { IsUnit self.now unit result }
    {
        match self.interfaces.get(unit as usize) {
            Some(interface) => entity_of(unit, interface),
            None => Entity::Unit(unit),
        }
    }

    /// A part of what a generic declares, through an instance.
    fn part_of_generic(
        &self,
        types: &Types,
        instance: u32,
        generic: u32,
        name: &[u8],
    ) -> Option<Entity>
        ensures { IsPartOfGeneric (tables types.now) self.now instance generic name.now result }
    {
        match self.interfaces.get(generic as usize) {
            Some(interface) => part_through(types, instance, interface, name),
            None => Some(Entity::Component),
        }
    }

    /// A part of what an instance declares.
    fn part_of_instance(
        &self,
        types: &Types,
        generic: Option<u32>,
        instance: u32,
        name: &[u8],
    ) -> Option<Entity>
        ensures { IsPartOfInstance (tables types.now) self.now generic instance name.now result }
    {
        match generic {
            Some(generic) => self.part_of_generic(types, instance, generic, name),
            None => Some(Entity::Component),
        }
    }

    /// A part of what an interface shows.
    fn part_in(&self, types: &Types, interface: &Interface, name: &[u8]) -> Option<Entity>
        ensures { IsPartIn (tables types.now) self.now interface.now name.now result }
    {
        match interface {
            Interface::Package(declarations) => shown(declarations.find(name)),
            Interface::Instance(generic, instance) => {
                self.part_of_instance(types, *generic, *instance, name)
            }
            Interface::Unknown | Interface::Generic(_, _) | Interface::Subprogram(_) => None,
        }
    }

    /// A part of what a unit declares, by its name in lower case (RM 4.1.3). A generic is no package
    /// from outside.
    pub fn part_of(&self, types: &Types, unit: u32, name: &[u8]) -> Option<Entity>
        ensures { IsPart (tables types.now) self.now unit name.now result }
    {
        match self.interfaces.get(unit as usize) {
            Some(interface) => self.part_in(types, interface, name),
            None => None,
        }
    }
}
