//! What becomes of a walk over all units: the rules on static values, the limits, and the typed program
//! (Ada RM 2012, 10.2).

ghost use Rattle.std.specs.Prelude.{◌≡◌, IfOk};
ghost use Rattle.typed_program.specs.Assembled.{HasTypes, IsProgramOf};
ghost use Rattle.typed_program.specs.Entries.{AreEntries};
ghost use Rattle.typed_program.specs.TypeTexts.{AreTypeTexts};
ghost use Rattle.walked_program.specs.Checking as rules;
ghost use Rattle.walked_program.specs.Checking.{HasEntriesOf, DeclaresTypesOf, IsUnmet, IsExcess, ComesToAccepted, ComesToProgram};

use crate::fault::CheckFault;
use crate::whole_walk::WholeWalk;
use ada_demands::first_unmet;
use ada_entities::{Refusal, type_declarations};
use ada_library::Library;
use ada_syntax::Unit;
use ada_tree::{Program, UnitEntry};
use cov_base::{Failure, Pos};
use std::alloc::{AllocError, Global};
use typed_program::{entries, program_of, type_texts};
use word_limits::first_excess;

/// A refusal by the rules on names.
pub fn naming(failure: Failure<Refusal>) -> Failure<CheckFault>
    ensures { result ≡ rules.naming_of failure }
{
    match failure {
        Failure::Fault(refusal) => Failure::Fault(CheckFault::Naming(refusal.pos)),
        Failure::WantOfMemory => Failure::WantOfMemory,
    }
}

/// A refusal by the rules on types.
pub fn typing(failure: Failure<Refusal>) -> Failure<CheckFault>
    ensures { result ≡ rules.typing_of failure }
{
    match failure {
        Failure::Fault(refusal) => Failure::Fault(CheckFault::Typing(refusal.pos)),
        Failure::WantOfMemory => Failure::WantOfMemory,
    }
}

/// Where the first demand on static values is made that is not met.
fn unmet(alloc: Global, whole: &WholeWalk) -> Result<Option<Pos>, AllocError>
    ensures { IfOk result (IsUnmet whole.now) }
{
    let demands = whole.walk.notes.statics.demands.as_slice();
    first_unmet(alloc, &whole.instances, &whole.walk.spans, demands)
}

/// Where a counted limit is passed first. Composite types stand in the texts of these generics.
fn excess(
    alloc: Global,
    whole: &WholeWalk,
    generics: &[Option<u32>],
    units: &[Unit],
) -> Result<Option<Pos>, AllocError>
    ensures { IfOk result (IsExcess whole.now units.now) }
{
    let types = type_declarations(alloc, whole.walk.symbols.types(), generics)?;
    first_excess(
        alloc,
        types.as_slice(),
        &whole.instances,
        &whole.walk,
        units,
    )
}

/// The rules on static values and then the limits, where those on types hold.
#[tactic(auto, using(crate::proofs::CheckedLaws::refusals))]
fn accepted(
    alloc: Global,
    whole: &WholeWalk,
    generics: &[Option<u32>],
    units: &[Unit],
) -> Result<(), Failure<CheckFault>>
    ensures { ComesToAccepted units.now whole.now result }
{
    if let Some(pos) = unmet(alloc, whole)? {
        return Err(Failure::Fault(CheckFault::Typing(pos)));
    }
    if let Some(pos) = excess(alloc, whole, generics, units)? {
        return Err(Failure::Fault(CheckFault::Limit(pos)));
    }
    Ok(())
}

/// What the typed program has beside what the walk has found.
#[derive(Drop)]
struct Prepared {
    generics: Vec<Option<u32>>,
    entries: Vec<UnitEntry>,
}

/// The rules on static values and the limits, and what the typed program has beside what the walk has
/// found.
#[tactic(auto, using(crate::proofs::CheckedLaws::refusals))]
fn prepare(
    alloc: Global,
    library: &Library,
    whole: &WholeWalk,
    units: &[Unit],
) -> Result<Prepared, Failure<CheckFault>>
    ensures accepted { ComesToAccepted units.now whole.now result }
    ensures entries { IfOk result (λ b. AreEntries library.now whole.now.walk.symbols.units units.now b.entries.items) }
    ensures texts { IfOk result (λ b. AreTypeTexts whole.now.walk b.generics.items) }
{
    let generics = type_texts(alloc, &whole.walk)?;
    accepted(alloc, whole, generics.as_slice(), units)?;
    let entries = entries(alloc, library, &whole.walk.symbols, units)?;
    Ok(Prepared { generics, entries })
}

/// The typed program of what a walk over all units has left.
fn assembled(
    alloc: Global,
    library: &Library,
    whole: WholeWalk,
    prepared: Prepared,
    main: &[u8],
) -> Result<Program, AllocError>
    ensures program { IfOk result (IsProgramOf library.now whole.instances whole.walk main.now) }
    ensures units { IfOk result (λ p. p.units ≡ prepared.entries.items) }
    ensures types { IfOk result (HasTypes prepared.generics.items whole.walk) }
{
    let WholeWalk { walk, instances } = whole;
    let Prepared { generics, entries } = prepared;
    program_of(
        alloc,
        library,
        &instances,
        generics.as_slice(),
        entries,
        main,
        walk,
    )
}

/// The typed program of what a walk over all units has left, where the rules on static values and the
/// limits allow it.
#[tactic(auto, using(crate::proofs::CheckedLaws::refusals))]
pub fn program(
    alloc: Global,
    library: &Library,
    whole: WholeWalk,
    units: &[Unit],
    main: &[u8],
) -> Result<Program, Failure<CheckFault>>
    ensures program { ComesToProgram library.now units.now whole main.now result }
    ensures units { IfOk result (HasEntriesOf library.now units.now whole main.now) }
    ensures types { IfOk result (DeclaresTypesOf library.now units.now whole main.now) }
{
    let prepared = prepare(alloc, library, &whole, units)?;
    Ok(assembled(alloc, library, whole, prepared, main)?)
}
