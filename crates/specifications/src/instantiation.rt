//! Types of a generic's text, seen with the actuals of an instance that is being made (Ada RM 2012,
//! 12.3).

ghost use Rattle.std.specs.Prelude.{◌≡◌, slice_get};
ghost use Rattle.ada_rules.specs.Entities.{given_type, type_seen};
ghost use Rattle.ada_rules.specs.Types as rules;
ghost use Rattle.ada_entities.specs.Views.{identity_of, scalar_type_of, type_of};
ghost use Rattle.ada_entities.specs.EntityViews.{Tables};
ghost use Rattle.specifications.specs.Actuals.{actuals_of};

use crate::actual::InstanceActual;
use ada_entities::{AdaType, Identity, ScalarType};

/// An instance that is being made: its number, and what it has for the formals so far.
#[derive(Clone, Copy)]
pub struct Instantiation<'a> {
    pub number: u32,
    pub actuals: &'a [InstanceActual],
}

impl Instantiation<'_> {
    /// What the instance has for the formal type at this place.
    fn given(&self, place: u32) -> ScalarType
        ensures { (k : Tables) → scalar_type_of result
            ≡ given_type (slice_get (actuals_of k self.now.actuals.now) place) }
    {
        match self.actuals.get(place as usize) {
            Some(actual) => ScalarType::given(actual.given()),
            None => ScalarType::given(None),
        }
    }

    /// A scalar type.
    fn scalar_seen(&self, of: ScalarType) -> ScalarType
        ensures { (k : Tables) → scalar_type_of result
            ≡ type_seen self.now.number (actuals_of k self.now.actuals.now) (scalar_type_of of) }
    {
        match of {
            ScalarType::Integer(identity) => ScalarType::Integer(identity.seen(self.number)),
            ScalarType::Enumeration(identity, count) => {
                ScalarType::Enumeration(identity.seen(self.number), count)
            }
            ScalarType::Formal(_, place, _) => self.given(place),
        }
    }

    /// A type, as far as others are compared with it: of a composite one no component is seen yet.
    pub(crate) fn type_seen(&self, of: AdaType) -> AdaType
        ensures identity { (k : Tables) → rules.identity_of (type_of k.types result)
            ≡ rules.identity_of (type_seen self.now.number (actuals_of k self.now.actuals.now) (type_of k.types of)) }
        ensures integer { (k : Tables) → rules.is_integer (type_of k.types result)
            ≡ rules.is_integer (type_seen self.now.number (actuals_of k self.now.actuals.now) (type_of k.types of)) }
    {
        match of {
            AdaType::Scalar(scalar) => AdaType::Scalar(self.scalar_seen(scalar)),
            AdaType::Composite(composite) => AdaType::Composite(composite.seen(self.number)),
        }
    }

    /// Which type it is.
    pub(crate) fn identity_seen(&self, of: AdaType) -> Identity
        ensures { (k : Tables) → identity_of result
            ≡ rules.identity_of (type_seen self.now.number (actuals_of k self.now.actuals.now) (type_of k.types of)) }
    {
        self.type_seen(of).identity()
    }
}
