//! Names for formal types and subprograms (Ada RM 2012, 12.5, 12.6).

ghost use Rattle.std.specs.Prelude.{◌≡◌, ℕ, List, Some, None, option_map, IfOk, if◌then◌else◌};
ghost use Rattle.ada_rules.specs.Types as types;
ghost use Rattle.ada_rules.specs.Entities as entities;
ghost use Rattle.ada_rules.specs.Denoted as names;
ghost use Rattle.ada_rules.specs.Instances as rules;
ghost use Rattle.ada_entities.specs.Views.{type_of, subtype_of};
ghost use Rattle.ada_entities.specs.EntityViews.{Tables, routine_of, entity_of};
ghost use Rattle.ada_phrases.specs.DenotedView.{denotes};
ghost use Rattle.specifications.specs.Actuals.{actual_of, actuals_of};
ghost use Rattle.specifications.specs.Matches.{Says, for_name};

use crate::actual::InstanceActual;
use crate::profiles::Matching;
use ada_entities::{AdaType, Entity, RoutineName, Subtype};
use ada_phrases::Denoted;
use std::alloc::AllocError;

/// A subtype for a formal type: a discrete one, or an integer one where this is asked for (RM 12.5.2).
fn type_given(integral: bool, given: Subtype) -> Option<InstanceActual>
    ensures { (k : Tables) → option_map (actual_of k) result
        ≡ (if rules.matches_type integral (type_of k.types given.of)
        then Some (entities.type_actual (subtype_of k.types given)) else None) }
{
    match given.of {
        AdaType::Scalar(of) => {
            if !integral || of.is_integer() {
                Some(InstanceActual::Type(of, given.range))
            } else {
                None
            }
        }
        AdaType::Composite(_) => None,
    }
}

/// What a name gives for a formal type.
fn type_for(formal: Subtype, denoted: &Denoted) -> Option<InstanceActual>
    ensures { (k : Tables) (i : types.Identity) (n : ℕ) (before : List entities.Actual)
        → option_map (actual_of k) result
        ≡ rules.actual_for_name n before (entities.mark i (subtype_of k.types formal)) (denotes k denoted.now) }
{
    match denoted {
        Denoted::Mark(_, given) => type_given(formal.of.is_integer(), *given),
        Denoted::Value(_)
        | Denoted::Variable(_)
        | Denoted::Routine(_)
        | Denoted::Call(_, _)
        | Denoted::Exception(_)
        | Denoted::Unit(_)
        | Denoted::TestIo
        | Denoted::Thing => None,
    }
}

impl Matching<'_> {
    /// A subprogram for a formal one.
    fn routine_given(
        &self,
        formal: RoutineName,
        given: RoutineName,
    ) -> Result<Option<InstanceActual>, AllocError>
        ensures { IfOk result (λ o. Says self.now.symbols.now (λ k. option_map (actual_of k) o
            ≡ for_name self.now k (entities.routine (routine_of k formal)) (names.a_routine (routine_of k given)))) }
    {
        if self.same_profile(formal, given)? {
            Ok(Some(InstanceActual::Routine(given)))
        } else {
            Ok(None)
        }
    }

    /// What a name gives for a formal subprogram.
    fn routine_for(
        &self,
        formal: RoutineName,
        denoted: &Denoted,
    ) -> Result<Option<InstanceActual>, AllocError>
        ensures { IfOk result (λ o. Says self.now.symbols.now (λ k. option_map (actual_of k) o
            ≡ for_name self.now k (entities.routine (routine_of k formal)) (denotes k denoted.now))) }
    {
        match denoted {
            Denoted::Routine(given) => self.routine_given(formal, *given),
            Denoted::Mark(_, _)
            | Denoted::Value(_)
            | Denoted::Variable(_)
            | Denoted::Call(_, _)
            | Denoted::Exception(_)
            | Denoted::Unit(_)
            | Denoted::TestIo
            | Denoted::Thing => Ok(None),
        }
    }

    /// What a name gives for a formal type or subprogram: a subtype or a subprogram that fits it. None
    /// fits another formal.
    pub(crate) fn actual_for_name(
        &self,
        formal: Entity,
        denoted: &Denoted,
    ) -> Result<Option<InstanceActual>, AllocError>
        ensures { IfOk result (λ o. Says self.now.symbols.now (λ k. option_map (actual_of k) o
            ≡ for_name self.now k (entity_of k formal) (denotes k denoted.now))) }
    {
        match formal {
            Entity::Mark(_, subtype) => Ok(type_for(subtype, denoted)),
            Entity::Routine(routine) => self.routine_for(routine, denoted),
            Entity::Hidden
            | Entity::Literal(_, _)
            | Entity::Object(_)
            | Entity::FormalObject(_, _, _)
            | Entity::Exception(_)
            | Entity::Component
            | Entity::TestIo
            | Entity::Unit(_) => Ok(None),
        }
    }
}
