//! What units see of the library (Ada RM 2012, 10.1.2, 10.1.6).

ghost use Rattle.std.specs.Prelude.{◌≡◌, [], ◌∷◌, slice_get, IfOk, OnOk};
ghost use Rattle.ada_rules.specs.Library.{clause_names};
ghost use Rattle.ada_rules.specs.Units as rules;
ghost use Rattle.ada_library.specs.Seeing.{IsDenoted, SeesNames, IsOwn, IsSeen, IsSeenInBody};

use crate::items::{is_test_io, item_name};
use crate::library::Library;
use ada_entities::{Entity, Region, Units, key};
use ada_syntax::{Identifier, LibraryItem, Unit, WithClause};
use std::alloc::{AllocError, Global};

/// What a name, in lower case, denotes in the library.
fn denoted(library: &Library, interfaces: &Units, name: &[u8]) -> Option<Entity>
    ensures { IsDenoted library.now interfaces.now name.now result }
{
    if is_test_io(name) {
        return Some(Entity::TestIo);
    }
    match library.unit_named(name) {
        Some(unit) => Some(interfaces.entity(unit)),
        None => None,
    }
}

/// Lets what a name in a `with` clause denotes be seen.
fn see_name(
    alloc: Global,
    library: &Library,
    interfaces: &Units,
    name: &Identifier,
    region: &mut Region,
) -> Result<(), AllocError>
    ensures { OnOk result (SeesNames library.now interfaces.now region.old (name.now ∷ []) region.new) }
{
    let lower = key(alloc, name)?;
    match denoted(library, interfaces, lower.as_slice()) {
        Some(entity) => region.see(lower, entity),
        None => Ok(()),
    }
}

/// Lets what the names in a `with` clause denote be seen.
fn see_names(
    alloc: Global,
    library: &Library,
    interfaces: &Units,
    names: &[Identifier],
    region: &mut Region,
) -> Result<(), AllocError>
    ensures { OnOk result (SeesNames library.now interfaces.now region.old names.now region.new) }
{
    for name in names {
        see_name(alloc, library, interfaces, name, region)?;
    }
    Ok(())
}

/// Lets what `with` clauses name be seen.
fn see_clauses(
    alloc: Global,
    library: &Library,
    interfaces: &Units,
    clauses: &[WithClause],
    region: &mut Region,
) -> Result<(), AllocError>
    ensures { OnOk result (SeesNames library.now interfaces.now region.old (clause_names clauses.now) region.new) }
{
    for clause in clauses {
        see_names(alloc, library, interfaces, clause.names.as_slice(), region)?;
    }
    Ok(())
}

/// A region in which a unit sees its own name, which denotes this there.
fn own_region(alloc: Global, item: &LibraryItem, entity: Entity) -> Result<Region, AllocError>
    ensures { IfOk result (IsOwn item.now entity) }
{
    let name = key(alloc, item_name(item))?;
    let mut region = Region::new(alloc);
    let told = region.see(name, entity);
    told.and(Ok(region))
}

/// What a unit sees of the library: its own name, which denotes this there, and what it names in
/// `with`.
pub fn seen(
    alloc: Global,
    library: &Library,
    interfaces: &Units,
    unit: &Unit,
    entity: Entity,
) -> Result<Region, AllocError>
    ensures { IfOk result (IsSeen library.now interfaces.now unit.now entity) }
{
    let mut region = own_region(alloc, &unit.item, entity)?;
    let clauses = unit.withs.as_slice();
    let told = see_clauses(alloc, library, interfaces, clauses, &mut region);
    told.and(Ok(region))
}

/// The `with` clauses of the unit with this number.
fn withs_of(units: &[Unit], number: u32) -> &[WithClause]
    ensures { clause_names result.now ≡ rules.withs_of (slice_get units.now number) }
{
    match units.get(number as usize) {
        Some(unit) => unit.withs.as_slice(),
        None => &[],
    }
}

/// What the body of a package sees of the library: itself, what it names in `with`, and what its
/// specification does, the unit with this number.
pub fn seen_in_body(
    alloc: Global,
    library: &Library,
    interfaces: &Units,
    units: &[Unit],
    package_unit: u32,
    body: &Unit,
) -> Result<Region, AllocError>
    ensures { IfOk result (IsSeenInBody library.now interfaces.now units.now package_unit body.now) }
{
    let mut region = seen(alloc, library, interfaces, body, Entity::Unit(package_unit))?;
    let clauses = withs_of(units, package_unit);
    let told = see_clauses(alloc, library, interfaces, clauses, &mut region);
    told.and(Ok(region))
}
