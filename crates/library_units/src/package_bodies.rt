//! Bodies of packages (Ada RM 2012, 7.2).

ghost use Rattle.cov_base.specs.declared.position.Pos.{Pos};
ghost use Rattle.ada_rules.specs.Units as rules;
ghost use Rattle.unit_interfaces.specs.unit_walk.specs.Bodies.{PassesBody, ComesToBody};

use crate::items::body_items;
use ada_demands::Instances;
use ada_entities::{Refusal, Region};
use ada_syntax::PackageBody;
use cov_base::Failure;
use program_walk::{Walk, generic_of};
use std::alloc::Global;
use unit_interfaces::{
    UnitPlace, closed_by, enter_unit, leave_unit, note_library_words, package_context, text_of,
};

/// The body of the package with this number: its declarations and bodies come behind those of its
/// specification. Refused at the rules' own place.
#[tactic(auto, using(program_walk::proofs::GoingLaws::parts))]
pub fn package_body(
    alloc: Global,
    place: UnitPlace<'_>,
    instances: &Instances,
    walk: &mut Walk,
    seen: Region,
    package_unit: u32,
    body: &PackageBody,
) -> Result<(), Failure<Refusal>>
    ensures comes { (p : Pos) → ComesToBody place.entry instances.now walk.old walk.new seen
        (λ env s. (rules.package_body env s p package_unit body.now).answer) result }
    ensures passes { PassesBody walk.old walk.new seen result }
{
    let generic = generic_of(&walk.symbols, package_unit);
    let text = text_of(alloc, &walk.symbols, package_unit)?;
    let context = package_context(place.context(instances), generic, package_unit);
    enter_unit(alloc, walk, seen, text)?;
    body_items(alloc, &context, walk, body.items.as_slice())?;
    closed_by(alloc, &body.name, &body.end_name)?;
    leave_unit(alloc, &mut walk.symbols);
    note_library_words(alloc, &mut walk.found, place.unit, package_unit, generic)?;
    Ok(())
}
