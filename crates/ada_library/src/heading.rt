//! The headings of units: their names, and what they name in `with` (Ada RM 2012, 7.2, 10.1.2, 10.1.4).

ghost use Rattle.std.specs.Prelude.{◌≡◌, [], ◌∷◌, codes, Some, slice_get, IfOk};
ghost use Rattle.ada_rules.specs.Entities.{same_name};
ghost use Rattle.ada_rules.specs.Library as rules;
ghost use Rattle.ada_library.specs.Headings.{AnswersHeading, AnswersHeadings, MayName, IsKnown, ChecksNames, WantsBody, IsWanted, IsNew, IsDeclaredWell};

use crate::items::{has_body, is_package_body, is_test_io, item_name};
use crate::library::Library;
use ada_entities::{Refusal, key, refused};
use ada_syntax::{Identifier, LibraryItem, Unit};
use cov_base::{Failure, numbered};
use std::alloc::{AllocError, Global};

/// Whether a unit with this number may name another in `with`.
fn may_name_unit(
    alloc: Global,
    library: &Library,
    number: u32,
    item: &LibraryItem,
    named: u32,
) -> Result<bool, AllocError>
    ensures { IfOk result (MayName library.now number item.now (Some named)) }
{
    if is_package_body(item) {
        return Ok(true);
    }
    if named == number {
        return Ok(false);
    }
    Ok(!library.leads_back(alloc, named, number)?)
}

/// Whether a unit with this number may name in `with` what a name denotes there: a unit that does not
/// lead back to it, where it is no body of a package.
fn may_name(
    alloc: Global,
    library: &Library,
    number: u32,
    item: &LibraryItem,
    named: Option<u32>,
) -> Result<bool, AllocError>
    ensures { IfOk result (MayName library.now number item.now named) }
{
    match named {
        Some(named) => may_name_unit(alloc, library, number, item, named),
        None => Ok(false),
    }
}

/// Whether a name in a `with` clause of a unit with this number denotes a unit that it may name.
fn is_known(
    alloc: Global,
    library: &Library,
    number: u32,
    item: &LibraryItem,
    name: &Identifier,
) -> Result<bool, AllocError>
    ensures { IfOk result (IsKnown library.now number item.now name.now) }
{
    let lower = key(alloc, name)?;
    if is_test_io(lower.as_slice()) {
        return Ok(true);
    }
    may_name(
        alloc,
        library,
        number,
        item,
        library.unit_named(lower.as_slice()),
    )
}

/// A name in a `with` clause of a unit with this number.
fn check_name(
    alloc: Global,
    library: &Library,
    number: u32,
    unit: &Unit,
    name: &Identifier,
) -> Result<(), Failure<Refusal>>
    ensures { ChecksNames library.now number unit.now (name.now ∷ []) result }
{
    if is_known(alloc, library, number, &unit.item, name)? {
        Ok(())
    } else {
        Err(refused(name.pos))
    }
}

/// The names in a `with` clause of a unit with this number.
fn check_names(
    alloc: Global,
    library: &Library,
    number: u32,
    unit: &Unit,
    names: &[Identifier],
) -> Result<(), Failure<Refusal>>
    ensures { ChecksNames library.now number unit.now names.now result }
{
    for name in names {
        check_name(alloc, library, number, unit, name)?;
    }
    Ok(())
}

/// The `with` clauses of a unit with this number.
fn check_clauses(
    alloc: Global,
    library: &Library,
    number: u32,
    unit: &Unit,
) -> Result<(), Failure<Refusal>>
    ensures { ChecksNames library.now number unit.now (rules.clause_names unit.now.withs) result }
{
    for clause in unit.withs.as_slice() {
        check_names(alloc, library, number, unit, clause.names.as_slice())?;
    }
    Ok(())
}

/// Whether the package with this name, in lower case, has a body.
fn wants_body(library: &Library, units: &[Unit], name: &[u8]) -> bool
    ensures { WantsBody library.now units.now name.now result }
{
    match library.unit_named(name) {
        Some(number) => unit_has_body(units, number),
        None => false,
    }
}

/// Whether the unit with this number is a package that has a body.
fn unit_has_body(units: &[Unit], number: u32) -> bool
    ensures { result ≡ rules.wants_body (slice_get units.now number) }
{
    match units.get(number as usize) {
        Some(unit) => has_body(&unit.item),
        None => false,
    }
}

/// Whether the unit with this number is the first with its name.
fn is_first(number: u32, first: Option<u32>) -> bool
    ensures { result ≡ rules.is_first_name number first }
{
    match first {
        Some(first) => first == number,
        None => false,
    }
}

/// Whether the body with this number, of a package with this name in lower case, is the only one, and is
/// to be there.
fn is_wanted(library: &Library, units: &[Unit], number: u32, name: &[u8]) -> bool
    ensures { IsWanted library.now units.now number name.now result }
{
    wants_body(library, units, name) && is_first(number, library.package_body(name))
}

/// Whether the unit with this number is the only one of its name in lower case.
fn is_new(library: &Library, number: u32, name: &[u8]) -> bool
    ensures { IsNew library.now number name.now result }
{
    !is_test_io(name) && is_first(number, library.unit_named(name))
}

/// Whether the name of a unit with this number is new, or that of a package's only body exactly where
/// there is to be one.
fn is_declared_well(
    alloc: Global,
    library: &Library,
    units: &[Unit],
    number: u32,
    item: &LibraryItem,
) -> Result<bool, AllocError>
    ensures { IfOk result (IsDeclaredWell library.now units.now number item.now) }
{
    let name = key(alloc, item_name(item))?;
    match item {
        LibraryItem::PackageBody(_) => Ok(is_wanted(library, units, number, name.as_slice())),
        LibraryItem::Package(_) | LibraryItem::Instance(_) | LibraryItem::Subprogram(_) => {
            Ok(is_new(library, number, name.as_slice()))
        }
    }
}

/// The heading of a unit with this number.
fn heading(
    alloc: Global,
    library: &Library,
    units: &[Unit],
    number: u32,
    unit: &Unit,
) -> Result<(), Failure<Refusal>>
    ensures { AnswersHeading library.now units.now number unit.now result }
{
    check_clauses(alloc, library, number, unit)?;
    if is_declared_well(alloc, library, units, number, &unit.item)? {
        Ok(())
    } else {
        Err(refused(unit.pos))
    }
}

/// The headings of all units: each name in a `with` clause denotes a unit, which does not lead back to
/// the one that names it, names are new in the library, and packages have bodies exactly where they
/// declare subprograms. The first refusal is answered.
pub fn headings(alloc: Global, library: &Library, units: &[Unit]) -> Result<(), Failure<Refusal>>
    ensures { AnswersHeadings library.now units.now result }
{
    for (index, unit) in units.iter().enumerate() {
        heading(alloc, library, units, numbered(index)?, unit)?;
    }
    Ok(())
}
