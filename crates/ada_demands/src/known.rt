//! Values and bounds in instances, while the constants of one of them are being computed (Ada RM 2012,
//! 3.5, 4.9).

ghost use Rattle.std.specs.Prelude.{◌≡◌, None, Some, option_map, slice_get, unwrap_or};
ghost use Rattle.ada_meaning.specs.Statics.{bounds_between, static_bounds, static_value};
ghost use Rattle.ada_meaning.specs.Types as type;
ghost use Rattle.ada_tree.specs.Programs.{bounds_of};
ghost use Rattle.ada_tree.specs.View.{scalar_range_of, static_of, static_value_of};
ghost use Rattle.ada_rules.specs.Statics.{bounds_of_fact, fact_in, instance_values, number_of_fact};
ghost use Rattle.ada_demands.specs.FactViews.{fact_of};
ghost use Rattle.ada_demands.specs.KnownViews.{known_values};

use crate::facts::{Fact, Instances};
use ada_resolved::{computed, length, owner_in, signed};
use ada_tree::{Range, ScalarRange, Static, StaticValue};

/// What instances have, where of one of them these are the constants so far.
#[derive(Clone, Copy)]
pub(crate) struct Known<'a> {
    pub(crate) instances: &'a Instances,
    /// The number of the instance whose constants are being computed.
    pub(crate) instance: u32,
    pub(crate) constants: &'a [Option<i32>],
}

/// The constant with this place, where it has a value.
fn constant_at(constants: &[Option<i32>], place: u32) -> Option<i32>
    ensures { result ≡ unwrap_or (slice_get constants.now place) None }
{
    constants.get(place as usize).copied().flatten()
}

/// The value of what an instance has for a formal object (RM 12.4).
fn number_of(fact: Fact) -> Option<i32>
    ensures { result ≡ number_of_fact (Some (fact_of fact)) }
{
    match fact {
        Fact::Number(value) => Some(value),
        _ => None,
    }
}

/// The bounds of what an instance has for a formal type (RM 12.5).
fn bounds_of_type(fact: Fact) -> Option<Range>
    ensures { option_map bounds_of result ≡ bounds_of_fact (Some (fact_of fact)) }
{
    match fact {
        Fact::Type(bounds, _) => Some(bounds),
        _ => None,
    }
}

/// The values between two bounds, where there are both.
pub(crate) fn between(first: Option<i32>, last: Option<i32>) -> Option<Range>
    ensures { option_map bounds_of result ≡ bounds_between first last }
{
    Some(Range {
        first: first?,
        last: last?,
    })
}

impl Instances {
    /// What an instance has for the formal with this place (RM 12.3).
    pub(crate) fn formal(&self, instance: u32, place: u32) -> Option<Fact>
        ensures { option_map fact_of result ≡ fact_in self.now instance place }
    {
        let facts = self.at(instance)?;
        facts.formals.as_slice().get(place as usize).copied()
    }
}

impl<'a> Known<'a> {
    /// What instances have, where all constants are computed.
    pub(crate) fn of(instances: &'a Instances) -> Known<'a>
        ensures instances { result.instances.now ≡ instances.now }
        ensures values { known_values result ≡ instance_values instances.now }
    {
        Known {
            instances,
            instance: 0,
            constants: &[],
        }
    }
}

impl Known<'_> {
    /// The value that an instance has for the constant with this place among those of its generic.
    fn constant(&self, instance: u32, place: u32) -> Option<i32>
        ensures { result ≡ (known_values self.now).constant instance place }
    {
        if instance == self.instance {
            return constant_at(self.constants, place);
        }
        let facts = self.instances.at(instance)?;
        constant_at(facts.constants.as_slice(), place)
    }

    /// The value of a number, a formal object or a constant in an instance.
    pub(crate) fn value(&self, instance: u32, value: StaticValue) -> Option<i32>
        ensures { result ≡ static_value (known_values self.now) instance (static_value_of value) }
    {
        match value {
            StaticValue::Number(number) => Some(number),
            StaticValue::Formal(place) => number_of(self.instances.formal(instance, place)?),
            StaticValue::Constant(place) => self.constant(instance, place),
        }
    }

    /// The bounds of a range between two values in an instance.
    pub(crate) fn range(
        &self,
        instance: u32,
        first: StaticValue,
        last: StaticValue,
    ) -> Option<Range>
        ensures { option_map bounds_of result ≡ static_bounds (known_values self.now) instance
            (type.between (static_value_of first) (static_value_of last)) }
    {
        between(self.value(instance, first), self.value(instance, last))
    }

    /// The bounds of a range in an instance (RM 3.5).
    pub(crate) fn bounds(&self, instance: u32, range: ScalarRange) -> Option<Range>
        ensures { option_map bounds_of result
            ≡ static_bounds (known_values self.now) instance (scalar_range_of range) }
    {
        match range {
            ScalarRange::Known(range) => Some(range),
            ScalarRange::Between(owner, first, last) => {
                self.range(owner_in(instance, owner), first, last)
            }
            ScalarRange::Formal(owner, place) => {
                bounds_of_type(self.instances.formal(owner_in(instance, owner), place)?)
            }
        }
    }

    /// The value of a static expression in an instance (RM 4.9).
    pub(crate) fn number(&self, instance: u32, value: Static) -> Option<i32>
        ensures { result ≡ static_value (known_values self.now) instance (static_of value) }
    {
        match value {
            Static::Value(owner, value) => self.value(owner_in(instance, owner), value),
            Static::First(range) => Some(self.bounds(instance, range)?.first),
            Static::Last(range) => Some(self.bounds(instance, range)?.last),
            Static::Length(range) => length(self.bounds(instance, range)?),
            Static::Signed(sign, operand) => signed(sign, self.value(instance, operand)?),
            Static::Operation(operator, left, right) => {
                let left = self.value(instance, left)?;
                computed(operator, left, self.value(instance, right)?)
            }
        }
    }
}
