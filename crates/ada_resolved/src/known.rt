//! What is known while values are computed: what the instances of a program have, and the constants so far
//! of one instance.

ghost use Rattle.std.specs.Prelude.{◌≡◌, None, Some, option_map, slice_get, unwrap_or};
ghost use Rattle.std.specs.Option.{option_copied};
ghost use Rattle.ada_meaning.specs.Resolved as resolved;
ghost use Rattle.ada_meaning.specs.Statics.{static_bounds, static_value, value_of_formal, bounds_of_formal, values_of};
ghost use Rattle.ada_meaning.specs.Types as type;
ghost use Rattle.ada_tree.specs.Programs.{bounds_of, formal_actual_of, program_of};
ghost use Rattle.ada_tree.specs.View.{owner_of, scalar_range_of, static_of, static_value_of};
ghost use Rattle.ada_resolved.specs.Known.{instance_at, known_values};

use crate::arithmetic::{computed, length, signed};
use ada_tree::{FormalActual, Instance, Owner, Program, Range, ScalarRange, Static, StaticValue};

/// What the instances of a program have, where of one of them these are the constants so far.
#[derive(Clone, Copy)]
pub struct Known<'a> {
    pub program: &'a Program,
    /// The number of the instance whose constants are being computed.
    pub instance: u32,
    pub constants: &'a [Option<i32>],
}

/// The number of the instance that owns an entity, seen from an instance.
pub fn owner_in(instance: u32, owner: Owner) -> u32
    ensures { result ≡ resolved.owner_in instance (owner_of owner) }
{
    match owner {
        Owner::Here => instance,
        Owner::Instance(number) => number,
    }
}

/// The instance with this number; 0 is none.
pub fn instance_at(instances: &[Instance], number: u32) -> Option<&Instance>
    ensures { option_copied result ≡ instance_at instances.now number }
{
    let index = number.checked_sub(1)?;
    instances.get(index as usize)
}

/// The constant with this place, where it has a value.
fn constant_at(constants: &[Option<i32>], place: u32) -> Option<i32>
    ensures { result ≡ unwrap_or (slice_get constants.now place) None }
{
    constants.get(place as usize).copied().flatten()
}

/// The value of what an instance has for a formal object (RM 12.4).
fn value_of(actual: FormalActual) -> Option<i32>
    ensures { result ≡ value_of_formal (Some (formal_actual_of actual)) }
{
    match actual {
        FormalActual::Object(_, value) => Some(value),
        _ => None,
    }
}

/// The bounds of what an instance has for a formal type (RM 12.5).
fn range_of(actual: FormalActual) -> Option<Range>
    ensures { option_map bounds_of result ≡ bounds_of_formal (Some (formal_actual_of actual)) }
{
    match actual {
        FormalActual::Type(_, range, _) => Some(range),
        _ => None,
    }
}

impl<'a> Known<'a> {
    /// What the instances of a program have, where all constants are computed.
    pub fn of(program: &'a Program) -> Known<'a>
        ensures program { result.program.now ≡ program.now }
        ensures values { known_values result ≡ values_of (program_of program.now) }
    {
        Known {
            program,
            instance: 0,
            constants: &[],
        }
    }
}

impl Known<'_> {
    /// What an instance has for the formal with this place (RM 12.3).
    pub fn formal(&self, instance: u32, place: u32) -> Option<FormalActual>
        ensures { option_map formal_actual_of result
            ≡ resolved.formal_of (program_of self.now.program.now) instance place }
    {
        let instance = instance_at(self.program.instances.as_slice(), instance)?;
        instance.actuals.as_slice().get(place as usize).copied()
    }

    /// The value that an instance has for the constant with this place among those of its generic.
    fn constant(&self, instance: u32, place: u32) -> Option<i32>
        ensures { result ≡ (known_values self.now).constant instance place }
    {
        if instance == self.instance {
            return constant_at(self.constants, place);
        }
        let instance = instance_at(self.program.instances.as_slice(), instance)?;
        constant_at(instance.constants.as_slice(), place)
    }

    /// The value of a number, a formal object or a constant in an instance.
    fn value(&self, instance: u32, value: StaticValue) -> Option<i32>
        ensures { result ≡ static_value (known_values self.now) instance (static_value_of value) }
    {
        match value {
            StaticValue::Number(number) => Some(number),
            StaticValue::Formal(place) => value_of(self.formal(instance, place)?),
            StaticValue::Constant(place) => self.constant(instance, place),
        }
    }

    /// The bounds of a range between two values in an instance.
    fn between(&self, instance: u32, first: StaticValue, last: StaticValue) -> Option<Range>
        ensures { option_map bounds_of result ≡ static_bounds (known_values self.now) instance
            (type.between (static_value_of first) (static_value_of last)) }
    {
        let first = self.value(instance, first)?;
        let last = self.value(instance, last)?;
        Some(Range { first, last })
    }

    /// The bounds of a range in an instance (RM 3.5).
    pub fn bounds(&self, instance: u32, range: ScalarRange) -> Option<Range>
        ensures { option_map bounds_of result ≡ static_bounds (known_values self.now) instance (scalar_range_of range) }
    {
        match range {
            ScalarRange::Known(range) => Some(range),
            ScalarRange::Between(owner, first, last) => {
                self.between(owner_in(instance, owner), first, last)
            }
            ScalarRange::Formal(owner, place) => {
                range_of(self.formal(owner_in(instance, owner), place)?)
            }
        }
    }

    /// The value of a static expression in an instance (RM 4.9).
    pub fn number(&self, instance: u32, value: Static) -> Option<i32>
        ensures { result ≡ static_value (known_values self.now) instance (static_of value) }
    {
        match value {
            Static::Value(owner, value) => self.value(owner_in(instance, owner), value),
            Static::First(range) => Some(self.bounds(instance, range)?.first),
            Static::Last(range) => Some(self.bounds(instance, range)?.last),
            Static::Length(range) => length(self.bounds(instance, range)?),
            Static::Signed(sign, operand) => signed(sign, self.value(instance, operand)?),
            Static::Operation(operator, left, right) => {
                let left = self.value(instance, left)?;
                computed(operator, left, self.value(instance, right)?)
            }
        }
    }
}
