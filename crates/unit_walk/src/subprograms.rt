//! Library subprograms, as other units see them (Ada RM 2012, 10.1.1).

ghost use Rattle.std.specs.Prelude.{◌≡◌, IfOk, unwrap_or};
ghost use Rattle.ada_rules.specs.Units as rules;
ghost use Rattle.unit_walk.specs.Walked.{ComesToInterface, Passes};
ghost use Rattle.unit_walk.specs.Subprograms.{IsBodyOrFirst};

use crate::entering::{enter_unit, leave_unit};
use crate::place::UnitPlace;
use ada_demands::Instances;
use ada_entities::{Completion, Interface, Refusal, Region};
use ada_syntax::{Identifier, SubprogramBody};
use cov_base::Failure;
use program_walk::{Context, Walk};
use specifications::{body_number, new_routine, profile_alone};
use std::alloc::{AllocError, Global};

/// The number of the body of a subprogram by its name; the first, where there is no such body.
fn body_or_first(alloc: Global, context: &Context<'_>, name: &Identifier) -> Result<u32, AllocError>
    ensures { IfOk result (IsBodyOrFirst context.now name.now) }
{
    let number = body_number(alloc, context, name)?;
    Ok(number.unwrap_or(0))
}

/// A library subprogram: other units see its profile. Its own name is hidden in it. Refused at the rules'
/// own place.
#[tactic(auto, using(program_walk::proofs::GoingLaws::parts))]
pub fn subprogram_shown(
    alloc: Global,
    place: UnitPlace<'_>,
    instances: &Instances,
    walk: &mut Walk,
    seen: Region,
    body: &SubprogramBody,
) -> Result<(), Failure<Refusal>>
    ensures comes { ComesToInterface place.entry instances.now instances.now walk.old walk.new seen
        (λ env s. (rules.library_subprogram env s place.entry.unit body.now).answer) result }
    ensures passes { Passes walk.old walk.new seen result }
{
    let context = place.context(instances);
    enter_unit(alloc, walk, seen, Region::new(alloc))?;
    let profile = profile_alone(alloc, &context, walk, &body.specification)?;
    leave_unit(alloc, &mut walk.symbols);
    let number = body_or_first(alloc, &context, &body.specification.name)?;
    let complete = Completion::Complete;
    let routine = new_routine(&mut walk.symbols, None, profile, number, complete)?;
    walk.symbols
        .set_unit(place.unit, Interface::Subprogram(routine))?;
    Ok(())
}
