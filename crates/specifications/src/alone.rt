//! Specifications without a body (Ada RM 2012, 6.1).

ghost use Rattle.std.specs.Prelude.{◌≡◌};
ghost use Rattle.program_walk.specs.Going.{KeepsOn};
ghost use Rattle.specifications.specs.Alone.{ComesToProfile};

use crate::conformance::Profile;
use crate::specification::specified;
use ada_entities::Refusal;
use ada_syntax::Specification;
use cov_base::Failure;
use program_walk::{Context, Walk};
use std::alloc::Global;
use std::mem;

/// A specification without a body: its parameters are declared in a region that closes again, and are no
/// objects of a subprogram that is counted. Refused at the rules' own place.
#[tactic(auto, using(program_walk::proofs::GoingLaws::parts))]
pub fn profile_alone(
    alloc: Global,
    context: &Context<'_>,
    walk: &mut Walk,
    specification: &Specification,
) -> Result<Profile, Failure<Refusal>>
    ensures comes { ComesToProfile context.now walk.old walk.new specification.now result }
    ensures keeps { KeepsOn walk.old walk.new result }
{
    let objects = walk.counts.objects;
    let words = mem::replace(&mut walk.found.words, Vec::new(alloc));
    let profile = specified(alloc, context, walk, specification)?;
    walk.counts.objects = objects;
    walk.found.words = words;
    let _ = walk.symbols.close(alloc);
    Ok(profile)
}
