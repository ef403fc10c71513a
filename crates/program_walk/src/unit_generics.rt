//! The generic that a unit is (Ada RM 2012, 12.1).

ghost use Rattle.program_walk.specs.UnitGenerics.{IsGenericIn, IsGenericOf};

use crate::symbols::Symbols;
use ada_entities::Interface;

/// The generic that a unit with this number is, where others see this of it.
fn generic_in(interface: &Interface, unit: u32) -> Option<u32>
    ensures { IsGenericIn interface.now unit result }
{
    match interface {
        Interface::Generic(_, _) => Some(unit),
        Interface::Unknown
        | Interface::Package(_)
        | Interface::Instance(_, _)
        | Interface::Subprogram(_) => None,
    }
}

/// The generic that the unit with this number is, if it is one.
pub fn generic_of(symbols: &Symbols, unit: u32) -> Option<u32>
    ensures { IsGenericOf symbols.now.units unit result }
{
    match symbols.interface(unit) {
        Some(interface) => generic_in(interface, unit),
        None => None,
    }
}
