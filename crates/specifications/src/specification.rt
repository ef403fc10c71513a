//! Specifications of subprograms (Ada RM 2012, 6.1).

ghost use Rattle.std.specs.Prelude.{◌≡◌};
ghost use Rattle.ada_rules.specs.Subprograms as rules;
ghost use Rattle.program_walk.specs.Walks.{ComesTo};
ghost use Rattle.specifications.specs.EnteringParameters.{profile_in, EntersOn};

use crate::conformance::Profile;
use crate::parameters::parameters;
use crate::results::result;
use ada_entities::Refusal;
use ada_syntax::Specification;
use cov_base::{Failure, Seq};
use program_walk::{Context, Walk};
use std::alloc::Global;

/// A specification, whose parameters are the first objects of the subprogram: they are declared in a new
/// region, which stays open. Refused at the rules' own place.
#[tactic(auto, using(program_walk::proofs::GoingLaws::parts))]
pub fn specified(
    alloc: Global,
    context: &Context<'_>,
    walk: &mut Walk,
    specification: &Specification,
) -> Result<Profile, Failure<Refusal>>
    ensures comes { ComesTo (profile_in walk.new) context.now walk.old walk.new
        (λ k env s. (rules.specified env s specification.now).answer) result }
    ensures enters { EntersOn walk.old walk.new result }
{
    walk.counts.objects = 0;
    walk.found.words = Vec::new(alloc);
    walk.symbols.open(alloc)?;
    let inside = context.inside();
    let list = parameters(alloc, &inside, walk, specification.parameters.as_slice())?;
    let place = inside.place(&walk.symbols);
    let site = place.site;
    let mark = result(
        alloc,
        &site,
        &mut walk.notes.decisions,
        specification.pos,
        list.as_slice(),
        &specification.result_mark,
    )?;
    Ok(Profile {
        parameters: Seq::from(list),
        result: mark,
    })
}
