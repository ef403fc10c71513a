//! What the body of a unit begins with (Ada RM 2012, 7.2, 10.1).

ghost use Rattle.std.specs.Prelude.{IfOk};
ghost use Rattle.unit_walk.specs.Bodies.{IsTextIn, IsRoutineIn, IsTextOf, IsRoutineOf};

use ada_entities::{Entity, Interface, Region};
use program_walk::Symbols;
use std::alloc::{AllocError, Global};

/// The declarations of a package or a generic; none of what is neither.
fn text_in(alloc: Global, interface: &Interface) -> Result<Region, AllocError>
    ensures { IfOk result (IsTextIn interface.now) }
{
    match interface {
        Interface::Package(region) => region.copied(),
        Interface::Generic(_, region) => region.copied(),
        Interface::Unknown | Interface::Instance(_, _) | Interface::Subprogram(_) => {
            Ok(Region::new(alloc))
        }
    }
}

/// The subprogram that a unit is; what is none is hidden.
fn routine_in(interface: &Interface) -> Entity
    ensures { IsRoutineIn interface.now result }
{
    match interface {
        Interface::Subprogram(routine) => Entity::Routine(*routine),
        Interface::Unknown
        | Interface::Package(_)
        | Interface::Generic(_, _)
        | Interface::Instance(_, _) => Entity::Hidden,
    }
}

/// The declarations of the package with this number, with which the text of its body begins.
pub fn text_of(alloc: Global, symbols: &Symbols, unit: u32) -> Result<Region, AllocError>
    ensures { IfOk result (IsTextOf symbols.now.units unit) }
{
    match symbols.interface(unit) {
        Some(interface) => text_in(alloc, interface),
        None => Ok(Region::new(alloc)),
    }
}

/// The subprogram that the unit with this number is, which its name denotes in its own body.
pub fn routine_of(symbols: &Symbols, unit: u32) -> Entity
    ensures { IsRoutineOf symbols.now.units unit result }
{
    match symbols.interface(unit) {
        Some(interface) => routine_in(interface),
        None => Entity::Hidden,
    }
}
