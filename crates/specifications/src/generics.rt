//! The generic of an instance (Ada RM 2012, 12.3).

ghost use Rattle.specifications.specs.Generics.{IsGenericOf, IsGeneric, IsGenericNamed};

use ada_entities::{Entity, Refusal, refused};
use ada_phrases::Step;
use ada_syntax::Identifier;
use cov_base::{Failure, Pos};
use program_walk::{Site, Symbols};
use std::alloc::Global;

/// The number of the generic that an entity is, if it is one.
fn generic_of(symbols: &Symbols, entity: Entity) -> Option<u32>
    ensures { IsGenericOf symbols.now entity result }
{
    match entity {
        Entity::Unit(unit) => match symbols.formals_of(unit) {
            Some(_) => Some(unit),
            None => None,
        },
        Entity::Hidden
        | Entity::Mark(_, _)
        | Entity::Literal(_, _)
        | Entity::Object(_)
        | Entity::FormalObject(_, _, _)
        | Entity::Routine(_)
        | Entity::Exception(_)
        | Entity::Component
        | Entity::TestIo => None,
    }
}

/// A generic by what a name at this place denotes; the step of names goes on with none for something
/// else.
fn generic_or_any(
    step: Step,
    pos: Pos,
    generic: Option<u32>,
) -> Result<Option<u32>, Failure<Refusal>>
    ensures { IsGeneric step pos generic result }
{
    match (generic, step) {
        (Some(_), _) | (None, Step::Naming) => Ok(generic),
        (None, Step::Typing) => Err(refused(pos)),
    }
}

/// The generic that an instance names, by the number of its unit; the step of names goes on with none for
/// something else that is visible (RM 12.3). Refused at the rules' own place.
pub fn generic_named(
    alloc: Global,
    site: &Site<'_>,
    name: &Identifier,
) -> Result<Option<u32>, Failure<Refusal>>
    ensures { IsGenericNamed site.now name.now result }
{
    let Some(entity) = site.visible(alloc, name)? else {
        return Err(refused(name.pos));
    };
    generic_or_any(site.step, name.pos, generic_of(site.symbols, entity))
}
