//! Enumeration types and their literals (Ada RM 2012, 3.5.1).

ghost use Rattle.std.specs.Prelude.{◌≡◌, IfOk, OnOk};
ghost use Rattle.program_walk.specs.Changes.{IsOpen, ChangesInside};
ghost use Rattle.declarations.specs.Literals.{IsEnumeration, IsLiteral, DeclaresLiterals};

use ada_entities::{AdaType, Entity, Identity, ScalarType, Subtype};
use ada_syntax::Identifier;
use ada_tree::{Range, ScalarRange};
use cov_base::signed_numbered;
use program_walk::Symbols;
use std::alloc::{AllocError, Global};

/// The enumeration type with so many literals, with all its values. One with 2^31 or more has no memory.
pub(crate) fn enumeration(identity: Identity, literals: usize) -> Result<Subtype, AllocError>
    ensures { IfOk result (IsEnumeration identity literals) }
{
    let count = signed_numbered(literals)?;
    let range = Range {
        first: 0,
        last: count - 1,
    };
    Ok(Subtype {
        of: AdaType::Scalar(ScalarType::Enumeration(identity, count as u32)),
        range: ScalarRange::Known(range),
    })
}

/// The literal of a type with this place among its literals. One from the place 2^31 on has no memory.
fn literal(of: AdaType, place: usize) -> Result<Entity, AllocError>
    ensures { IfOk result (IsLiteral of place) }
{
    Ok(Entity::Literal(of, signed_numbered(place)?))
}

/// Lets names of the innermost region denote the literals of a type, in order.
pub(crate) fn declare_literals(
    alloc: Global,
    symbols: &mut Symbols,
    of: AdaType,
    names: &[Identifier],
) -> Result<(), AllocError>
    ensures literals { OnOk result (DeclaresLiterals symbols.old symbols.new of names.now) }
    ensures inside { OnOk result (IsOpen symbols.old → ChangesInside symbols.old symbols.new) }
{
    for (place, name) in names.iter().enumerate() {
        symbols.redefine(alloc, name, literal(of, place)?)?;
    }
    Ok(())
}
