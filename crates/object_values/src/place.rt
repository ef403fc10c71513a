//! Where it is told that a value is not of its object's type (Ada RM 2012, 4.3.3, 5.2).

ghost use Rattle.std.specs.Prelude.{IfOk};
ghost use Rattle.object_values.specs.Places.{IsValuePlace};

use ada_entities::Subtype;
use cov_base::Pos;
use program_walk::Symbols;
use std::alloc::AllocError;

/// The place at which it is told that a value with an `others` at each of these places round it is not
/// of the type of an object of this subtype: that of the innermost `others` that stands for the
/// components of an array, and else `pos`, where the statement or declaration begins. A type that leads
/// nowhere has no memory.
pub fn value_place(
    symbols: &Symbols,
    pos: Pos,
    subtype: Subtype,
    others: &[Pos],
) -> Result<Pos, AllocError>
    ensures { IfOk result (IsValuePlace symbols.now pos subtype others.now) }
{
    let mut place = pos;
    let mut component = subtype;
    for other in others {
        let Some((_, within)) = symbols.array_of(component.of)? else {
            return Ok(place);
        };
        place = *other;
        component = within;
    }
    Ok(place)
}
