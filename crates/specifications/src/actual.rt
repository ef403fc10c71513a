//! What instances have for formals (Ada RM 2012, 12.3 to 12.6).

ghost use Rattle.std.specs.Prelude.{◌≡◌, Some, map, IfOk};
ghost use Rattle.ada_rules.specs.Entities.{given_type};
ghost use Rattle.ada_rules.specs.Instances as rules;
ghost use Rattle.ada_entities.specs.Views.{given_of};
ghost use Rattle.ada_entities.specs.EntityViews.{Tables};
ghost use Rattle.ada_entities.specs.UnitViews.{GiveSame};
ghost use Rattle.specifications.specs.Actuals.{actual_of};

use ada_entities::{Identity, RoutineName, ScalarType, Subtype};
use ada_tree::{ScalarRange, StaticValue};
use cov_base::Seq;
use std::alloc::{AllocError, Global};

/// What an instance has for a formal.
#[derive(Clone, Copy)]
pub enum InstanceActual {
    /// For a formal object its static value, as it is called in the text (RM 12.4).
    Object(StaticValue),
    /// For a formal type a scalar subtype: its type, and its values (RM 12.5).
    Type(ScalarType, ScalarRange),
    /// For a formal subprogram a subprogram (RM 12.6).
    Routine(RoutineName),
}

impl InstanceActual {
    /// What the step of names goes on with.
    pub(crate) fn any() -> InstanceActual
        ensures { (k : Tables) → actual_of k result ≡ rules.any_actual }
    {
        let of = ScalarType::Integer(Identity::Integer);
        InstanceActual::Type(of, Subtype::integer().range)
    }

    /// The type that it gives for a formal type.
    pub(crate) fn given(self) -> Option<ScalarType>
        ensures { (k : Tables) → given_type (Some (given_of result)) ≡ given_type (Some (actual_of k self)) }
    {
        match self {
            InstanceActual::Type(of, _) => Some(of),
            InstanceActual::Object(_) | InstanceActual::Routine(_) => None,
        }
    }
}

/// The types that these give for formal types, at the places of the formals (RM 12.5).
pub fn given_types(
    alloc: Global,
    actuals: &[InstanceActual],
) -> Result<Seq<Option<ScalarType>>, AllocError>
    ensures { IfOk result (λ types. (k : Tables) → GiveSame (map (actual_of k) actuals.now) (map given_of types)) }
{
    let mut types = Vec::new(alloc);
    for actual in actuals {
        types.push(actual.given())?;
    }
    Ok(Seq::from(types))
}
