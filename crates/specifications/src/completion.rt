//! Bodies that complete a declaration (Ada RM 2012, 6.3, 7.2).

ghost use Rattle.std.specs.Prelude.{◌≡◌, Some, option_map, IfOk, IfErr, IfSome, OnOk};
ghost use Rattle.ada_syntax.specs.declared.name.Identifier.{Identifier};
ghost use Rattle.ada_rules.specs.Entities.{Region};
ghost use Rattle.ada_rules.specs.Subprograms.{to_complete};
ghost use Rattle.ada_entities.specs.EntityViews.{Tables, entity_of};
ghost use Rattle.program_walk.specs.Changes.{ChangesInside, Continues, IsOpen};
ghost use Rattle.specifications.specs.Completions.{Completes, RefusesBody};
ghost use Rattle.specifications.specs.Profiles.{completing};

use ada_entities::{Completion, Entity, Refusal, RoutineName, refused};
use ada_syntax::Identifier;
use cov_base::Failure;
use program_walk::Symbols;
use std::alloc::Global;

/// The subprogram that an entity is, if it is one that waits for its body.
fn awaiting_body(entity: Entity) -> Option<RoutineName>
    ensures waits { (k : Tables) (region : Region) (i : Identifier)
        → to_complete region i (Some (entity_of k entity)) ≡ option_map (λ r. region) result }
    ensures declared { (k : Tables) → IfSome result (λ r. entity_of k entity ≡ completing k (Some r)) }
{
    match entity {
        Entity::Routine(routine) => match routine.completion {
            Completion::AwaitsBody => Some(routine),
            Completion::Complete => None,
        },
        Entity::Hidden
        | Entity::Mark(_, _)
        | Entity::Literal(_, _)
        | Entity::Object(_)
        | Entity::FormalObject(_, _, _)
        | Entity::Exception(_)
        | Entity::Component
        | Entity::TestIo
        | Entity::Unit(_) => None,
    }
}

/// The declaration that a body in the innermost region completes: one that has no body yet. Where its
/// name is new, the body declares a subprogram, whose name is hidden from here on, and there is none
/// (RM 6.3). Refused at the rules' own place.
pub fn complete(
    alloc: Global,
    symbols: &mut Symbols,
    name: &Identifier,
) -> Result<Option<RoutineName>, Failure<Refusal>>
    ensures completed { IfOk result (Completes symbols.old symbols.new name.now) }
    ensures inside { OnOk result (IsOpen symbols.old → ChangesInside symbols.old symbols.new) }
    ensures refused { IfErr result (RefusesBody symbols.old name.now) }
    ensures continues { Continues symbols.old symbols.new }
{
    match symbols.find_inside(alloc, name)? {
        None => {
            symbols.declare(alloc, name)?;
            Ok(None)
        }
        Some(entity) => match awaiting_body(entity) {
            Some(routine) => Ok(Some(routine)),
            None => Err(refused(name.pos)),
        },
    }
}
