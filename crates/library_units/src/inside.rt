//! The inside of bodies: declarations, statements, and the end (Ada RM 2012, 6.3, 6.5).

ghost use Rattle.program_walk.specs.Going.{IsWalkOpen};
ghost use Rattle.unit_interfaces.specs.specifications.specs.Going.{AdvancesOn};
ghost use Rattle.library_units.specs.Inside.{IsEndAllowed, IsEnded, ComesToInside};

use ada_entities::{Refusal, refused};
use ada_phrases::Step;
use ada_syntax::SubprogramBody;
use ada_tree::{Block, Parameter};
use cov_base::{Failure, Seq};
use program_walk::{Context, Returning, Walk};
use statements::{all_declared, all_handled, frame_returns};
use std::alloc::Global;
use unit_interfaces::{closed_by, entry_of, record_body};

/// Whether a body whose `return` gives this may end: a function has at least one `return` (RM 6.5).
fn may_end(body: &SubprogramBody, returning: Returning) -> bool
    ensures { IsEndAllowed body.now returning result }
{
    match returning {
        Returning::Nothing => true,
        Returning::Value(_) => frame_returns(&body.statements),
    }
}

/// The end of a body: the name after it, and whether the body may end there.
#[tactic(auto, using(program_walk::proofs::GoingLaws::parts))]
fn ended(
    alloc: Global,
    context: &Context<'_>,
    body: &SubprogramBody,
) -> Result<(), Failure<Refusal>>
    ensures { IsEnded context.now body.now result }
{
    closed_by(alloc, &body.specification.name, &body.end_name)?;
    match context.step {
        Step::Naming => Ok(()),
        Step::Typing => {
            if may_end(body, context.returning) {
                Ok(())
            } else {
                Err(refused(body.specification.pos))
            }
        }
    }
}

/// The declarations and the statements of a body with these parameters, whose region is the innermost one
/// and stays open. The body joins what was found. Refused at the rules' own place.
#[tactic(auto, using(program_walk::proofs::GoingLaws::parts))]
pub(crate) fn body_inside(
    alloc: Global,
    context: &Context<'_>,
    walk: &mut Walk,
    parameters: Vec<Parameter>,
    body: &SubprogramBody,
) -> Result<(), Failure<Refusal>>
    ensures comes { ComesToInside context.now walk.old walk.new parameters.items body.now result }
    ensures goes { IsWalkOpen walk.old → AdvancesOn walk.old walk.new result }
{
    let made = all_declared(alloc, context, walk, body.declarations.as_slice())?;
    let frame = all_handled(alloc, context, walk, &body.statements)?;
    ended(alloc, context, body)?;
    let block = Block {
        declarations: Seq::from(made),
        statements: frame.statements,
        handlers: frame.handlers,
    };
    let entry = entry_of(body);
    let generic = context.generic;
    record_body(alloc, &mut walk.found, generic, entry, parameters, block)?;
    Ok(())
}
