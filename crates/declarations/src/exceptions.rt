//! Exceptions (Ada RM 2012, 11.1).

ghost use Rattle.std.specs.Prelude.{◌≡◌, IfOk, OnOk};
ghost use Rattle.program_walk.specs.Going.{GoesInside, IsWalkOpen};
ghost use Rattle.declarations.specs.Exceptions.{IsInnerName, IsExceptionName, AddsException, AddsExceptions};

use crate::owners::owner;
use ada_entities::{Entity, key};
use ada_syntax::Identifier;
use ada_tree::{ExceptionDeclaration, ExceptionName};
use cov_base::Bytes;
use program_walk::{Context, Walk};
use std::alloc::{AllocError, Global};

/// A subprogram's name, a point, and the name of what is declared in it.
fn inner_name(alloc: Global, subprogram: &[u8], name: &[u8]) -> Result<Bytes, AllocError>
    ensures { IfOk result (IsInnerName subprogram.now name.now) }
{
    let mut full = Vec::from_slice(alloc, subprogram)?;
    full.push(b'.')?;
    full.extend_from_slice(name)?;
    Ok(Bytes::from(full))
}

/// What comes after the unit's name and a point in the full name of an exception, in lower case: its
/// name, and before it that of the subprogram in which it is declared, unless that is empty.
fn exception_name(
    alloc: Global,
    subprogram: &[u8],
    identifier: &Identifier,
) -> Result<Bytes, AllocError>
    ensures { IfOk result (IsExceptionName subprogram.now identifier.now) }
{
    let name = key(alloc, identifier)?;
    match subprogram.split_first() {
        Some(_) => inner_name(alloc, subprogram, name.as_slice()),
        None => Ok(Bytes::from(name)),
    }
}

/// Declares an exception under a name of the innermost region, with the next number.
fn add_exception(
    alloc: Global,
    context: &Context<'_>,
    walk: &mut Walk,
    identifier: &Identifier,
) -> Result<(), AllocError>
    ensures added { OnOk result (AddsException context.now walk.old walk.new identifier.now) }
    ensures inside { OnOk result (GoesInside walk.old walk.new) }
{
    let number = walk.counts.exception()?;
    let name = exception_name(alloc, context.subprogram_name, identifier)?;
    let unit = Vec::from_slice(alloc, context.unit_name)?;
    let declaration = ExceptionDeclaration {
        declaration: number,
        place: identifier.pos,
        generic: context.generic,
        unit: Bytes::from(unit),
        name,
    };
    walk.found.add_exception(declaration)?;
    let name = ExceptionName::Declared(owner(context.generic), number);
    walk.symbols
        .redefine(alloc, identifier, Entity::Exception(name))?;
    Ok(())
}

/// Declares exceptions under names of the innermost region, with the next numbers.
pub(crate) fn add_exceptions(
    alloc: Global,
    context: &Context<'_>,
    walk: &mut Walk,
    names: &[Identifier],
) -> Result<(), AllocError>
    ensures added { OnOk result (AddsExceptions context.now walk.old walk.new names.now) }
    ensures inside { OnOk result (IsWalkOpen walk.old → GoesInside walk.old walk.new) }
{
    for name in names {
        add_exception(alloc, context, walk, name)?;
    }
    Ok(())
}
