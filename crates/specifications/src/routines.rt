//! Subprograms that are declared, with their profiles (Ada RM 2012, 6.1, 7.2).

ghost use Rattle.std.specs.Prelude.{◌≡◌, is_some, if◌then◌else◌, IfOk, OnOk};
ghost use Rattle.ada_meaning.specs.Types.{here, of_instance};
ghost use Rattle.ada_tree.specs.View.{owner_of};
ghost use Rattle.ada_rules.specs.Subprograms as rules;
ghost use Rattle.ada_entities.specs.EntityViews.{Tables, values_of};
ghost use Rattle.program_walk.specs.Changes.{IsOpen, ChangesInside, Grows};
ghost use Rattle.specifications.specs.Profiles.{results_of};
ghost use Rattle.program_walk.specs.Going.{GoesOn, IsWalkOpen};
ghost use Rattle.specifications.specs.Routines.{IsRoutineWith, IsRoutineOf, EntersRoutine, AddsRoutine, IsBodyIn, ComesToRegion};

use crate::alone::profile_alone;
use crate::conformance::Profile;
use ada_entities::{
    Completion, Entity, Refusal, ResultMark, Routine, RoutineName, Subtype, Values, key, refused,
};
use ada_syntax::{Identifier, Specification};
use ada_tree::{Callee, Owner};
use cov_base::Failure;
use program_walk::{Context, Symbols, Walk};
use std::alloc::{AllocError, Global};

/// Who owns what is declared in the text of a generic, or in none.
pub fn owner(generic: Option<u32>) -> Owner
    ensures { owner_of result ≡ (if is_some generic then here else of_instance 0) }
{
    match generic {
        Some(_) => Owner::Here,
        None => Owner::Instance(0),
    }
}

/// The values that a case statement on a call names, of a subprogram with this result.
fn values(mark: Option<ResultMark>) -> Values
    ensures { (k : Tables) → values_of k result ≡ rules.routine_values (results_of k here mark) }
{
    match mark {
        Some(mark) => Values::Within(mark.subtype.range),
        None => Values::Within(Subtype::integer().range),
    }
}

/// Adds a subprogram, and lets a name of the innermost region denote it. One whose numbers lead nowhere
/// has no memory.
pub fn enter_routine(
    alloc: Global,
    symbols: &mut Symbols,
    name: &Identifier,
    routine: Routine,
    completion: Completion,
) -> Result<(), AllocError>
    ensures entered { OnOk result (EntersRoutine symbols.old symbols.new name.now routine completion) }
    ensures inside { OnOk result (IsOpen symbols.old → ChangesInside symbols.old symbols.new) }
{
    let number = symbols.add_routine(routine)?;
    let entered = RoutineName {
        number,
        seen: Owner::Here,
        completion,
    };
    symbols.redefine(alloc, name, Entity::Routine(entered))?;
    Ok(())
}

/// A subprogram with this profile, which is declared in the text of a generic or in none and whose body
/// has this number.
fn routine_with(generic: Option<u32>, profile: Profile, body: u32) -> Routine
    ensures { IsRoutineWith generic profile body result }
{
    let Profile { parameters, result } = profile;
    Routine {
        callee: Callee::Subprogram(owner(generic), body),
        parameters,
        result,
        values: values(result),
    }
}

/// Adds a subprogram, which is declared in the text of a generic or in none and whose body has this
/// number, and answers what it is named by. One whose numbers lead nowhere has no memory.
pub fn new_routine(
    symbols: &mut Symbols,
    generic: Option<u32>,
    profile: Profile,
    body: u32,
    completion: Completion,
) -> Result<RoutineName, AllocError>
    ensures named { IfOk result (IsRoutineOf symbols.new generic profile body completion) }
    ensures added { OnOk result (Grows symbols.old symbols.new) }
{
    let number = symbols.add_routine(routine_with(generic, profile, body))?;
    Ok(RoutineName {
        number,
        seen: Owner::Here,
        completion,
    })
}

/// Adds a subprogram in the same way, and lets a name of the innermost region denote it.
pub fn add_routine(
    alloc: Global,
    symbols: &mut Symbols,
    generic: Option<u32>,
    name: &Identifier,
    profile: Profile,
    body: u32,
    completion: Completion,
) -> Result<(), AllocError>
    ensures added { OnOk result (AddsRoutine symbols.old symbols.new generic name.now profile body completion) }
    ensures inside { OnOk result (IsOpen symbols.old → ChangesInside symbols.old symbols.new) }
{
    let routine = routine_with(generic, profile, body);
    enter_routine(alloc, symbols, name, routine, completion)
}

/// The number of the body of a subprogram of the unit, by its name; none where there is no such body.
pub fn body_number(
    alloc: Global,
    context: &Context<'_>,
    name: &Identifier,
) -> Result<Option<u32>, AllocError>
    ensures { IfOk result (IsBodyIn context.now name.now) }
{
    let name = key(alloc, name)?;
    let library = context.library;
    library.body_number(alloc, context.unit_name, name.as_slice())
}

/// A subprogram declaration in a package, which has a body (RM 7.2). Refused at the rules' own place.
#[tactic(auto, using(program_walk::proofs::GoingLaws::parts))]
pub fn subprogram_declared(
    alloc: Global,
    context: &Context<'_>,
    walk: &mut Walk,
    specification: &Specification,
) -> Result<(), Failure<Refusal>>
    ensures comes { ComesToRegion context.now walk.old walk.new
        (λ k env s. (rules.subprogram_declared env s specification.now).answer) result }
    ensures goes { IsWalkOpen walk.old → GoesOn walk.old walk.new result }
{
    let name = &specification.name;
    walk.symbols.declare(alloc, name)?;
    let profile = profile_alone(alloc, context, walk, specification)?;
    let Some(body) = body_number(alloc, context, name)? else {
        return Err(refused(specification.pos));
    };
    let generic = context.generic;
    let waits = Completion::AwaitsBody;
    add_routine(
        alloc,
        &mut walk.symbols,
        generic,
        name,
        profile,
        body,
        waits,
    )?;
    Ok(())
}
