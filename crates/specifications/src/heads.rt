//! Heads of bodies in packages (Ada RM 2012, 6.1, 6.3, 6.3.1).

ghost use Rattle.std.specs.Prelude.{OnOk};
ghost use Rattle.specifications.specs.Going.{IsSound, GoesIntoOn};
ghost use Rattle.specifications.specs.Heads.{Reenters, ComesToHead};

use crate::completion::complete;
use crate::conformance::{Profile, conforming};
use crate::routines::{add_routine, body_number};
use crate::specification::specified;
use crate::typed::{Head, head_of};
use ada_entities::{Completion, Refusal};
use ada_syntax::{Identifier, SubprogramBody};
use cov_base::Failure;
use program_walk::{Context, Symbols, Walk};
use std::alloc::{AllocError, Global};

/// Lets the name of a body with this profile denote it in the region round that of its parameters, which
/// is the innermost one; that is open again inside.
fn enter_body(
    alloc: Global,
    context: &Context<'_>,
    symbols: &mut Symbols,
    name: &Identifier,
    profile: Profile,
) -> Result<(), AllocError>
    ensures { OnOk result (Reenters context.now symbols.old symbols.new name.now profile) }
{
    let parameters = symbols.close(alloc);
    let found = body_number(alloc, context, name)?;
    let body = found.unwrap_or(0);
    let complete = Completion::Complete;
    let generic = context.generic;
    add_routine(alloc, symbols, generic, name, profile, body, complete)?;
    symbols.reopen(parameters)?;
    Ok(())
}

/// The head of a body in a package: what it completes or declares, its specification, which conforms to
/// what it completes, and the region of its parameters, which stays open. Refused at the rules' own place.
#[tactic(auto, using(program_walk::proofs::GoingLaws::parts))]
pub fn packaged_head(
    alloc: Global,
    context: &Context<'_>,
    walk: &mut Walk,
    body: &SubprogramBody,
) -> Result<Head, Failure<Refusal>>
    ensures comes { ComesToHead context.now walk.old walk.new body.now result }
    ensures goes { IsSound walk.old → GoesIntoOn walk.old walk.new result }
{
    let specification = &body.specification;
    let name = &specification.name;
    let declaration = complete(alloc, &mut walk.symbols, name)?;
    let profile = specified(alloc, context, walk, specification)?;
    conforming(&walk.symbols, specification.pos, declaration, &profile)?;
    let head = head_of(alloc, &walk.symbols, &profile)?;
    enter_body(alloc, context, &mut walk.symbols, name, profile)?;
    Ok(head)
}
