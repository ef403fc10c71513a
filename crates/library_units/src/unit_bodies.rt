//! The bodies of all units of a library (Ada RM 2012, 7.2, 10.1).

ghost use Rattle.unit_interfaces.specs.unit_walk.specs.Bodies.{PassesBodies, ComesToNamed, ComesToBodiesOf, ComesToAllBodies};

use crate::package_bodies::package_body;
use crate::subprogram_bodies::subprogram_body;
use ada_demands::Instances;
use ada_entities::{Refusal, key};
use ada_library::{Library, item_name, seen, seen_in_body};
use ada_phrases::Step;
use ada_syntax::{LibraryItem, PackageBody, Unit};
use cov_base::{Failure, numbered};
use program_walk::Walk;
use std::alloc::Global;
use unit_interfaces::{UnitPlace, routine_of};

/// The body of the package with the name of its unit, where there is such a package. Refused at the
/// rules' own place.
#[tactic(auto, using(program_walk::proofs::GoingLaws::parts))]
fn named_body(
    alloc: Global,
    place: UnitPlace<'_>,
    instances: &Instances,
    walk: &mut Walk,
    units: &[Unit],
    unit: &Unit,
    body: &PackageBody,
) -> Result<(), Failure<Refusal>>
    ensures comes { ComesToNamed place.entry instances.now units.now walk.old walk.new unit.now body.now result }
    ensures passes { PassesBodies place.entry.library.now units.now walk.old walk.new result }
{
    match place.library.unit_named(place.unit_name) {
        Some(package) => {
            let interfaces = walk.symbols.units();
            let seen = seen_in_body(alloc, place.library, interfaces, units, package, unit)?;
            package_body(alloc, place, instances, walk, seen, package, body)
        }
        None => Ok(()),
    }
}

/// The body of the unit with this number, where it is one. Refused at the rules' own place.
#[tactic(auto, using(program_walk::proofs::GoingLaws::parts))]
fn unit_body(
    alloc: Global,
    step: Step,
    library: &Library,
    instances: &Instances,
    walk: &mut Walk,
    units: &[Unit],
    number: u32,
    unit: &Unit,
) -> Result<(), Failure<Refusal>>
    ensures comes { ComesToBodiesOf step library.now instances.now units.now walk.old walk.new number unit.now result }
    ensures passes { PassesBodies library.now units.now walk.old walk.new result }
{
    let name = key(alloc, item_name(&unit.item))?;
    let place = UnitPlace {
        step,
        library,
        unit: number,
        unit_name: name.as_slice(),
    };
    match &unit.item {
        LibraryItem::PackageBody(body) => {
            named_body(alloc, place, instances, walk, units, unit, body)
        }
        LibraryItem::Subprogram(body) => {
            let own = routine_of(&walk.symbols, number);
            let seen = seen(alloc, library, walk.symbols.units(), unit, own)?;
            subprogram_body(alloc, place, instances, walk, seen, body)
        }
        LibraryItem::Package(_) | LibraryItem::Instance(_) => Ok(()),
    }
}

/// The bodies of all units in the order of the text. Refused at the rules' own place.
#[tactic(auto, using(program_walk::proofs::GoingLaws::parts))]
pub fn all_bodies(
    alloc: Global,
    step: Step,
    library: &Library,
    instances: &Instances,
    walk: &mut Walk,
    units: &[Unit],
) -> Result<(), Failure<Refusal>>
    ensures comes { ComesToAllBodies step library.now instances.now units.now walk.old walk.new result }
    ensures passes { PassesBodies library.now units.now walk.old walk.new result }
{
    for (index, unit) in units.iter().enumerate() {
        let number = numbered(index)?;
        unit_body(alloc, step, library, instances, walk, units, number, unit)?;
    }
    Ok(())
}
