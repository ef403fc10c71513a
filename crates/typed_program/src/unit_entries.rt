//! What the limits ask of the units of a program (Ada RM 2012, 12.3).

ghost use Rattle.std.specs.Prelude.{◌≡◌, IfOk};
ghost use Rattle.program_weights.specs.Entries as rules;
ghost use Rattle.typed_program.specs.Entries.{IsRoleBy, IsOwnRole, IsBodyRole, IsRoleOf, IsEntryOf, AreEntries};

use ada_entities::{Interface, key};
use ada_library::Library;
use ada_syntax::{LibraryItem, PackageBody, Unit, node_count};
use ada_tree::{UnitEntry, UnitRole};
use cov_base::numbered;
use program_walk::{Symbols, generic_of};
use std::alloc::{AllocError, Global};

/// How often what belongs to the text of a generic counts, or of none.
fn text_role(generic: Option<u32>) -> UnitRole
    ensures { result ≡ rules.text_role generic }
{
    match generic {
        Some(generic) => UnitRole::OfGeneric(generic),
        None => UnitRole::Once,
    }
}

/// How often an instance of a generic counts, or of what is none.
fn instance_role(generic: Option<u32>) -> UnitRole
    ensures { result ≡ rules.instance_role generic }
{
    match generic {
        Some(generic) => UnitRole::InstanceOf(generic),
        None => UnitRole::Once,
    }
}

/// How often the unit with this number counts, where other units see this of it.
fn role_by(unit: u32, interface: &Interface) -> UnitRole
    ensures { IsRoleBy unit interface.now result }
{
    match interface {
        Interface::Generic(_, _) => UnitRole::OfGeneric(unit),
        Interface::Instance(generic, _) => instance_role(*generic),
        Interface::Unknown | Interface::Package(_) | Interface::Subprogram(_) => UnitRole::Once,
    }
}

/// How often a unit counts that is no body of a package.
fn own_role(symbols: &Symbols, unit: u32) -> UnitRole
    ensures { IsOwnRole symbols.now.units unit result }
{
    match symbols.interface(unit) {
        Some(interface) => role_by(unit, interface),
        None => UnitRole::Once,
    }
}

/// How often a body of a package counts.
fn body_role(
    alloc: Global,
    library: &Library,
    symbols: &Symbols,
    body: &PackageBody,
) -> Result<UnitRole, AllocError>
    ensures { IfOk result (IsBodyRole library.now symbols.now.units body.now) }
{
    let name = key(alloc, &body.name)?;
    match library.unit_named(name.as_slice()) {
        Some(package) => Ok(text_role(generic_of(symbols, package))),
        None => Ok(UnitRole::Once),
    }
}

/// How often the unit with this number counts, which is this.
fn role_of(
    alloc: Global,
    library: &Library,
    symbols: &Symbols,
    unit: u32,
    item: &LibraryItem,
) -> Result<UnitRole, AllocError>
    ensures { IfOk result (IsRoleOf library.now symbols.now.units unit item.now) }
{
    match item {
        LibraryItem::PackageBody(body) => body_role(alloc, library, symbols, body),
        LibraryItem::Package(_) | LibraryItem::Instance(_) | LibraryItem::Subprogram(_) => {
            Ok(own_role(symbols, unit))
        }
    }
}

/// What the limits ask of the unit with this number.
fn entry(
    alloc: Global,
    library: &Library,
    symbols: &Symbols,
    number: u32,
    unit: &Unit,
) -> Result<UnitEntry, AllocError>
    ensures { IfOk result (IsEntryOf library.now symbols.now.units number unit.now) }
{
    let role = role_of(alloc, library, symbols, number, &unit.item)?;
    Ok(UnitEntry {
        pos: unit.pos,
        nodes: node_count(unit),
        role,
    })
}

/// What the limits ask of all units, where this is seen of each.
pub fn entries(
    alloc: Global,
    library: &Library,
    symbols: &Symbols,
    units: &[Unit],
) -> Result<Vec<UnitEntry>, AllocError>
    ensures { IfOk result (λ es. AreEntries library.now symbols.now.units units.now es.items) }
{
    let mut entries = Vec::new(alloc);
    for (index, unit) in units.iter().enumerate() {
        let number = numbered(index)?;
        let entry = entry(alloc, library, symbols, number, unit)?;
        entries.push(entry)?;
    }
    Ok(entries)
}
