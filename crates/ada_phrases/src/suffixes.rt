//! Parts of what names denote (Ada RM 2012, 4.1.3, 4.1.4).

ghost use Rattle.std.specs.Prelude.{◌≡◌};
ghost use Rattle.ada_rules.specs.Entities.{key};
ghost use Rattle.ada_phrases.specs.declared.names.Denoted.TheVariants as denoted;
ghost use Rattle.ada_phrases.specs.Answers.{typed_answer, IsTypedFound};
ghost use Rattle.ada_phrases.specs.Steps.{IsNamed, IsSelected, IsAttributed};

use crate::attributes::is_attribute;
use crate::handing::{allowed, paired};
use crate::names::{Denoted, as_variable};
use crate::scope::{Scope, Step};
use ada_entities::{Entity, Refusal, key, refused};
use ada_judged::Variable;
use ada_syntax::Identifier;
use cov_base::{Failure, Pos};
use std::alloc::{AllocError, Global};

/// What a rule on types gives of a construct that begins at this place. The step of names goes on with
/// something in place of it.
pub fn typed<T: Drop>(
    step: Step,
    pos: Pos,
    anything: T,
    found: Option<T>,
) -> Result<T, Failure<Refusal>>
    ensures { result ≡ typed_answer step pos anything found }
{
    match step {
        Step::Naming => Ok(anything),
        Step::Typing => found.ok_or(refused(pos)),
    }
}

/// The same of a rule on types that takes memory.
pub fn typed_found<T: Drop>(
    step: Step,
    pos: Pos,
    anything: T,
    found: Result<Option<T>, AllocError>,
) -> Result<T, Failure<Refusal>>
    ensures { IsTypedFound step pos anything found result }
{
    match found {
        Ok(found) => typed(step, pos, anything, found),
        Err(fault) => Err(fault.into()),
    }
}

/// What a name that begins at this place denotes, where it denotes an entity: a rule on names.
#[tactic(auto, using(crate::proofs::Parts::parts))]
pub fn named(alloc: Global, pos: Pos, found: Option<Entity>) -> Result<Denoted, Failure<Refusal>>
    ensures { IsNamed pos found result }
{
    match found {
        Some(entity) => Ok(Denoted::of(alloc, entity)),
        None => Err(refused(pos)),
    }
}

/// The component of an object, whose name begins at this place.
#[tactic(auto, using(crate::proofs::Parts::parts))]
fn component(
    scope: &Scope<'_>,
    pos: Pos,
    variable: Variable,
    name: &[u8],
) -> Result<Denoted, Failure<Refusal>>
    ensures { IsSelected scope.now pos (denoted.Variable variable) name.now result }
{
    let found = variable.component(scope.types, name)?;
    typed(scope.step, pos, Denoted::Thing, as_variable(found))
}

/// A part of what a name denotes, by its own name in lower case (RM 4.1.3).
#[tactic(auto, using(crate::proofs::Parts::parts))]
fn part(
    alloc: Global,
    scope: &Scope<'_>,
    pos: Pos,
    prefix: Denoted,
    name: &[u8],
) -> Result<Denoted, Failure<Refusal>>
    ensures { IsSelected scope.now pos prefix name.now result }
{
    match prefix {
        Denoted::Unit(unit) => named(alloc, pos, scope.part_of_unit(unit, name)),
        Denoted::TestIo => named(alloc, pos, scope.part_of_test_io(name)),
        Denoted::Variable(variable) => component(scope, pos, variable, name),
        other => {
            drop(other);
            typed(scope.step, pos, Denoted::Thing, None)
        }
    }
}

/// A part of what a name denotes, which begins at this place (RM 4.1.3).
#[tactic(auto, using(crate::proofs::Parts::parts))]
pub fn selected(
    alloc: Global,
    scope: &Scope<'_>,
    pos: Pos,
    prefix: Denoted,
    identifier: &Identifier,
) -> Result<Denoted, Failure<Refusal>>
    ensures { IsSelected scope.now pos prefix (key identifier.now) result }
{
    let (prefix, name) = paired(prefix, key(alloc, identifier))?;
    part(alloc, scope, pos, prefix, name.as_slice())
}

/// An attribute of what a name denotes, by its own name in lower case (RM 4.1.4).
fn attribute_by(
    scope: &Scope<'_>,
    pos: Pos,
    prefix: Denoted,
    name: &[u8],
) -> Result<Denoted, Failure<Refusal>>
    ensures { IsAttributed scope.now pos prefix name.now result }
{
    let found = prefix.attribute(scope.types, name);
    let answer = typed(scope.step, pos, Denoted::Thing, found);
    allowed(is_attribute(name), pos, answer)
}

/// An attribute of what a name denotes, which begins at this place (RM 4.1.4).
#[tactic(auto, using(crate::proofs::Parts::parts))]
pub fn attributed(
    alloc: Global,
    scope: &Scope<'_>,
    pos: Pos,
    prefix: Denoted,
    identifier: &Identifier,
) -> Result<Denoted, Failure<Refusal>>
    ensures { IsAttributed scope.now pos prefix (key identifier.now) result }
{
    let (prefix, name) = paired(prefix, key(alloc, identifier))?;
    attribute_by(scope, pos, prefix, name.as_slice())
}
