//! Packages and generics, as other units see them (Ada RM 2012, 7.1, 10.1.1, 12.1).

ghost use Rattle.std.specs.Prelude.{◌≡◌, IfOk, OnOk};
ghost use Rattle.cov_base.specs.declared.position.Pos.{Pos};
ghost use Rattle.ada_rules.specs.Units as rules;
ghost use Rattle.ada_entities.specs.RegionCode.{innermost};
ghost use Rattle.program_walk.specs.declared.extent.Extent.{Extent};
ghost use Rattle.unit_walk.specs.Walked.{ComesToInterface, Passes};
ghost use Rattle.unit_interfaces.specs.Packages.{KeepsInnermost, IsInterfaceWith, IsKnownWith};

use crate::items::package_items;
use ada_entities::{Interface, Refusal, Region};
use ada_syntax::{Formal, PackageSpecification};
use cov_base::{Failure, Seq};
use program_walk::{Instances, Symbols, Walk};
use std::alloc::{AllocError, Global};
use unit_walk::{
    UnitPlace, closed_by, enter_unit, formals_declared, leave_unit, note_library_words,
    package_context,
};

/// The generic that a unit is, where it has formals.
fn generic_at(formals: &Option<Seq<Formal>>, unit: u32) -> Option<u32>
    ensures { result ≡ rules.generic_at formals.now unit }
{
    match formals {
        Some(_) => Some(unit),
        None => None,
    }
}

/// The formals; none, where the package is no generic.
fn formals_in(formals: &Option<Seq<Formal>>) -> &[Formal]
    ensures { result.now ≡ rules.formals_in formals.now }
{
    match formals {
        Some(formals) => formals.as_slice(),
        None => &[],
    }
}

/// The declarations of the innermost region once more; the region stays open.
fn innermost_copied(alloc: Global, symbols: &mut Symbols) -> Result<Region, AllocError>
    ensures region { IfOk result (λ r. r ≡ innermost symbols.old.regions) }
    ensures kept { OnOk result (KeepsInnermost symbols.old symbols.new) }
{
    let region = symbols.close(alloc);
    let copied = region.copied()?;
    symbols.reopen(region)?;
    Ok(copied)
}

/// What other units see of a package with these formals and this region.
fn interface_with(formals: &Option<Seq<Formal>>, formal_region: Region, region: Region) -> Interface
    ensures is { IsInterfaceWith formals.now formal_region region result }
    ensures known { (e : Extent) → IsKnownWith e formal_region region result }
{
    match formals {
        Some(_) => Interface::Generic(formal_region, region),
        None => Interface::Package(region),
    }
}

/// A package or a generic: other units see its declarations, and its formals. Refused at the rules' own
/// place.
#[tactic(auto, using(program_walk::proofs::GoingLaws::parts))]
pub fn package_shown(
    alloc: Global,
    place: UnitPlace<'_>,
    instances: &Instances,
    walk: &mut Walk,
    seen: Region,
    specification: &PackageSpecification,
) -> Result<(), Failure<Refusal>>
    ensures comes { (p : Pos) → ComesToInterface place.entry instances.now instances.now walk.old walk.new seen
        (λ env s. (rules.package_judged env s p place.entry.unit specification.now).answer) result }
    ensures passes { Passes walk.old walk.new seen result }
{
    let unit = place.unit;
    let generic = generic_at(&specification.formals, unit);
    let context = package_context(place.context(instances), generic, unit);
    enter_unit(alloc, walk, seen, Region::new(alloc))?;
    formals_declared(alloc, &context, walk, formals_in(&specification.formals))?;
    let formals = innermost_copied(alloc, &mut walk.symbols)?;
    package_items(alloc, &context, walk, specification.items.as_slice())?;
    closed_by(alloc, &specification.name, &specification.end_name)?;
    let region = leave_unit(alloc, &mut walk.symbols);
    note_library_words(alloc, &mut walk.found, unit, unit, generic)?;
    let interface = interface_with(&specification.formals, formals, region);
    walk.symbols.set_unit(unit, interface)?;
    Ok(())
}
