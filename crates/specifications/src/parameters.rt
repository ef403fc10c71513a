//! Parameters of subprograms (Ada RM 2012, 6.1).

ghost use Rattle.std.specs.Prelude.{◌≡◌};
ghost use Rattle.program_walk.specs.Going.{GoesOn, IsWalkOpen};
ghost use Rattle.specifications.specs.Parameters.{AddsParameters, ComesToParameters};

use crate::closing::mode_of;
use crate::objects::{ParameterForm, add_named, add_objects, note_limit, tree_subtype};
use ada_entities::{Parameter, Refusal};
use ada_syntax::Parameter as Source;
use cov_base::Failure;
use program_walk::{Context, Walk};
use std::alloc::Global;

/// Declares parameters that are declared together: their names are hidden in their declaration, and are
/// objects behind it.
#[tactic(auto, using(program_walk::proofs::GoingLaws::parts))]
fn add_parameters(
    alloc: Global,
    context: &Context<'_>,
    walk: &mut Walk,
    parameters: &mut Vec<Parameter>,
    group: &Source,
) -> Result<(), Failure<Refusal>>
    ensures comes { AddsParameters context.now walk.old walk.new
        parameters.old.items parameters.new.items group.now result }
    ensures goes { IsWalkOpen walk.old → GoesOn walk.old walk.new result }
{
    walk.symbols.hide_all(alloc, group.names.as_slice())?;
    let place = context.place(&walk.symbols);
    let site = place.site;
    let marked = site.mark(alloc, &mut walk.notes.decisions, &group.mark)?;
    let tree = tree_subtype(&walk.symbols, marked.subtype)?;
    let form = ParameterForm {
        mode: mode_of(group.mode),
        marked,
        tree,
    };
    let first = walk.counts.objects;
    note_limit(&mut walk.notes.decisions, first, group.names.as_slice())?;
    add_objects(alloc, walk, form, group.names.as_slice())?;
    add_named(alloc, parameters, form, group.names.as_slice())?;
    Ok(())
}

/// The parameters of a specification, in order, which are objects of the innermost region with the next
/// numbers. Refused at the rules' own place.
#[tactic(auto, using(program_walk::proofs::GoingLaws::parts))]
pub(crate) fn parameters(
    alloc: Global,
    context: &Context<'_>,
    walk: &mut Walk,
    groups: &[Source],
) -> Result<Vec<Parameter>, Failure<Refusal>>
    ensures comes { ComesToParameters context.now walk.old walk.new groups.now result }
    ensures goes { IsWalkOpen walk.old → GoesOn walk.old walk.new result }
{
    let mut parameters = Vec::new(alloc);
    for group in groups {
        add_parameters(alloc, context, walk, &mut parameters, group)?;
    }
    Ok(parameters)
}
