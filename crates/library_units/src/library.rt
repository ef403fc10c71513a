//! Bodies of library subprograms (Ada RM 2012, 6.3, 10.1).

ghost use Rattle.unit_interfaces.specs.specifications.specs.Going.{IsSound, AdvancesOn};
ghost use Rattle.library_units.specs.Library.{ComesToLibrary};

use crate::inside::body_inside;
use ada_entities::Refusal;
use ada_syntax::SubprogramBody;
use cov_base::Failure;
use program_walk::{Context, Walk};
use std::alloc::Global;
use std::mem;
use unit_interfaces::{body_context, head_of, specified};

/// The body of a library subprogram, whose unit was entered. Refused at the rules' own place.
#[tactic(auto, using(program_walk::proofs::GoingLaws::parts))]
pub fn library_body(
    alloc: Global,
    context: &Context<'_>,
    walk: &mut Walk,
    body: &SubprogramBody,
) -> Result<(), Failure<Refusal>>
    ensures comes { ComesToLibrary context.now walk.old walk.new body.now result }
    ensures goes { IsSound walk.old → AdvancesOn walk.old walk.new result }
{
    let objects = walk.counts.objects;
    let words = mem::replace(&mut walk.found.words, Vec::new(alloc));
    let profile = specified(alloc, context, walk, &body.specification)?;
    let head = head_of(alloc, &walk.symbols, &profile)?;
    let inside = body_context(
        context,
        context.library,
        context.instances,
        context.unit_name,
        &[],
        head.returning,
    );
    body_inside(alloc, &inside, walk, head.parameters, body)?;
    walk.counts.objects = objects;
    walk.found.words = words;
    let _ = walk.symbols.close(alloc);
    Ok(())
}
