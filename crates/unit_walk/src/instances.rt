//! Instances of generics, as other units see them (Ada RM 2012, 12.3).

ghost use Rattle.ada_rules.specs.Units as rules;
ghost use Rattle.unit_walk.specs.Walked.{ComesToInterface, Passes};

use crate::entering::{enter_unit, leave_unit};
use crate::instantiation::{instance_actuals, make_instance, show_instance};
use crate::place::UnitPlace;
use ada_demands::Instances;
use ada_entities::{Refusal, Region};
use ada_syntax::Instance;
use cov_base::{Failure, Pos};
use program_walk::Walk;
use std::alloc::Global;

/// An instance, whose text begins at this place and which has this number: a package of its own, whose
/// name is not visible in it. It is made, and other units see it. Refused at the rules' own place.
#[tactic(auto, using(program_walk::proofs::GoingLaws::parts))]
pub fn instance_shown(
    alloc: Global,
    place: UnitPlace<'_>,
    instances: &mut Instances,
    walk: &mut Walk,
    seen: Region,
    pos: Pos,
    number: u32,
    instance: &Instance,
) -> Result<(), Failure<Refusal>>
    ensures comes { ComesToInterface place.entry instances.old instances.new walk.old walk.new seen
        (λ env s. (rules.instance_judged env s pos place.entry.unit number instance.now).answer) result }
    ensures passes { Passes walk.old walk.new seen result }
{
    enter_unit(alloc, walk, seen, Region::new(alloc))?;
    let context = place.context(instances);
    let inside = context.place(&walk.symbols);
    let made = instance_actuals(alloc, inside, &mut walk.notes, number, pos, instance)?;
    leave_unit(alloc, &mut walk.symbols);
    make_instance(alloc, instances, walk, number, pos, &instance.name, &made)?;
    show_instance(alloc, &mut walk.symbols, place.unit, number, &made)?;
    Ok(())
}
