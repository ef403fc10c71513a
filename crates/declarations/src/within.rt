//! How far in `(others => ..)` goes, of an object of the library level (Ada RM 2012, 4.3.3).

ghost use Rattle.std.specs.Prelude.{◌≡◌, IfOk, option_map};
ghost use Rattle.ada_tree.specs.Programs.{initial_of};
ghost use Rattle.ada_entities.specs.EntityViews.{Tables};
ghost use Rattle.program_walk.specs.Parts.{valued_of};
ghost use Rattle.declarations.specs.Within.{IsWithin, subtype_within, initial_within};

use ada_entities::Subtype;
use ada_tree::{Initial, Owner, Static};
use cov_base::Pos;
use program_walk::{Symbols, Valued};
use std::alloc::{AllocError, Global};

/// What stands in an `others` at each of some places.
#[derive(Clone, Copy)]
pub(crate) enum Within {
    /// Each of them stands for the components of an array: a component of the innermost one.
    Component(Subtype),
    /// One of them does not: what it stands in.
    NoArray(Subtype),
}

/// What stands in an `others` at each of these places, in an object of this subtype. A type that leads
/// nowhere has no memory.
pub(crate) fn component_within(
    symbols: &Symbols,
    subtype: Subtype,
    others: &[Pos],
) -> Result<Within, AllocError>
    ensures { IfOk result (IsWithin symbols.now subtype others.now) }
{
    let mut component = subtype;
    for _ in others {
        let Some((_, inner)) = symbols.array_of(component.of)? else {
            return Ok(Within::NoArray(component));
        };
        component = inner;
    }
    Ok(Within::Component(component))
}

impl Within {
    /// The subtype of what stands there.
    pub(crate) fn subtype(self) -> Subtype
        ensures { result ≡ subtype_within self }
    {
        match self {
            Within::Component(subtype) | Within::NoArray(subtype) => subtype,
        }
    }

    /// The initial value that this static value makes in so many `others`, where it fits what stands
    /// there.
    pub(crate) fn initial(self, others: u32, value: Valued) -> Option<Initial>
        ensures { (k : Tables) → option_map initial_of result ≡ initial_within k.types others (valued_of k value) self }
    {
        match self {
            Within::Component(subtype) if value.kind.fits(subtype.of) => {
                let value = Static::Value(Owner::Here, value.value);
                Some(Initial::Static(others, value))
            }
            _ => None,
        }
    }
}
