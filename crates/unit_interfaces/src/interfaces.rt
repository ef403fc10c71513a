//! All units of a library, as others see them (Ada RM 2012, 10.1.1).

ghost use Rattle.unit_walk.specs.Interfaces.{ComesToUnit, ComesToUnits, PassesUnits};

use crate::shown_packages::package_shown;
use ada_entities::{Entity, Refusal, key};
use ada_library::{Library, item_name, seen};
use ada_phrases::Step;
use ada_syntax::{LibraryItem, Unit};
use cov_base::Failure;
use program_walk::{Instances, Walk};
use std::alloc::Global;
use unit_walk::{UnitPlace, instance_shown, subprogram_shown};

/// The unit with this number: other units see it from here on. A body of a package is seen by none.
/// Refused at the rules' own place.
#[tactic(auto, using(program_walk::proofs::GoingLaws::parts))]
fn unit_shown(
    alloc: Global,
    step: Step,
    library: &Library,
    instances: &mut Instances,
    walk: &mut Walk,
    number: u32,
    unit: &Unit,
) -> Result<(), Failure<Refusal>>
    ensures comes { ComesToUnit step library.now instances.old instances.new walk.old walk.new number unit.now result }
    ensures passes { PassesUnits library.now walk.old walk.new result }
{
    let name = key(alloc, item_name(&unit.item))?;
    let place = UnitPlace {
        step,
        library,
        unit: number,
        unit_name: name.as_slice(),
    };
    match &unit.item {
        LibraryItem::Package(package) => {
            let own = Entity::Unit(number);
            let seen = seen(alloc, library, walk.symbols.units(), unit, own)?;
            package_shown(alloc, place, instances, walk, seen, package)
        }
        LibraryItem::Instance(instance) => {
            let seen = seen(alloc, library, walk.symbols.units(), unit, Entity::Hidden)?;
            let own = library.instance_number(number);
            let pos = unit.item_pos;
            instance_shown(alloc, place, instances, walk, seen, pos, own, instance)
        }
        LibraryItem::Subprogram(body) => {
            let seen = seen(alloc, library, walk.symbols.units(), unit, Entity::Hidden)?;
            subprogram_shown(alloc, place, instances, walk, seen, body)
        }
        LibraryItem::PackageBody(_) => Ok(()),
    }
}

/// All units in the order in which they depend on each other: each is seen by others from there on.
/// Refused at the rules' own place.
#[tactic(auto, using(program_walk::proofs::GoingLaws::parts))]
pub fn all_shown(
    alloc: Global,
    step: Step,
    library: &Library,
    instances: &mut Instances,
    walk: &mut Walk,
    units: &[Unit],
) -> Result<(), Failure<Refusal>>
    ensures comes { ComesToUnits step library.now instances.old instances.new walk.old walk.new units.now result }
    ensures passes { PassesUnits library.now walk.old walk.new result }
{
    for number in library.order() {
        if let Some(unit) = units.get(*number as usize) {
            unit_shown(alloc, step, library, instances, walk, *number, unit)?;
        }
    }
    Ok(())
}
