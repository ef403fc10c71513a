//! Bodies in packages (Ada RM 2012, 6.3, 7.2).

ghost use Rattle.ada_rules.specs.Subprograms as rules;
ghost use Rattle.unit_interfaces.specs.specifications.specs.Routines.{ComesToRegion};
ghost use Rattle.unit_interfaces.specs.specifications.specs.Going.{IsSound, AdvancesOn};

use crate::inside::body_inside;
use ada_entities::{Refusal, key};
use ada_syntax::SubprogramBody;
use cov_base::Failure;
use program_walk::{Context, Walk};
use std::alloc::Global;
use std::mem;
use unit_interfaces::{body_context, packaged_head};

/// A body in a package, which completes a declaration that has none yet, or declares a subprogram
/// (RM 6.3). Refused at the rules' own place.
#[tactic(auto, using(program_walk::proofs::GoingLaws::parts))]
pub fn packaged_body(
    alloc: Global,
    context: &Context<'_>,
    walk: &mut Walk,
    body: &SubprogramBody,
) -> Result<(), Failure<Refusal>>
    ensures comes { ComesToRegion context.now walk.old walk.new
        (λ k env s. (rules.packaged_body env s body.now).answer) result }
    ensures goes { IsSound walk.old → AdvancesOn walk.old walk.new result }
{
    let objects = walk.counts.objects;
    let words = mem::replace(&mut walk.found.words, Vec::new(alloc));
    let head = packaged_head(alloc, context, walk, body)?;
    let name = key(alloc, &body.specification.name)?;
    let inside = body_context(
        context,
        context.library,
        context.instances,
        context.unit_name,
        name.as_slice(),
        head.returning,
    );
    body_inside(alloc, &inside, walk, head.parameters, body)?;
    walk.counts.objects = objects;
    walk.found.words = words;
    let _ = walk.symbols.close(alloc);
    Ok(())
}
