//! Values and bounds in instances, where all constants are computed (Ada RM 2012, 3.5, 4.9).

ghost use Rattle.std.specs.Prelude.{◌≡◌, option_map};
ghost use Rattle.std.specs.Option.{option_and_then};
ghost use Rattle.ada_meaning.specs.Statics as statics;
ghost use Rattle.ada_meaning.specs.Statics.{bounds_between};
ghost use Rattle.ada_tree.specs.Programs.{bounds_of};
ghost use Rattle.ada_tree.specs.View.{operator_of, scalar_range_of, static_of, static_value_of};
ghost use Rattle.ada_rules.specs.Statics.{bounds_in, value_in};
ghost use Rattle.ada_judged.specs.ada_entities.specs.EntityViews.{constant_of};
ghost use Rattle.ada_demands.specs.TreeValues.{operated};

use crate::facts::Instances;
use crate::known::Known;
use ada_judged::{ConstantValue, StaticKind, StaticOperand, StaticTree};
use ada_resolved::{computed, owner_in, signed};
use ada_tree::{Operator, Range, ScalarRange, Static, StaticValue};

/// An operator on two values, where there are both.
fn operation(operator: Operator, left: Option<i32>, right: Option<i32>) -> Option<i32>
    ensures { result ≡ option_and_then (λ x. option_and_then (statics.computed (operator_of operator) x) right) left }
{
    computed(operator, left?, right?)
}

impl Instances {
    /// The value of a static expression in the instance with this number, which is 0 in no generic
    /// (RM 4.9). There is none where a part leaves the base range, or has a divisor of 0.
    pub fn number(&self, instance: u32, value: Static) -> Option<i32>
        ensures { result ≡ value_in self.now instance (static_of value) }
    {
        Known::of(self).number(instance, value)
    }

    /// The bounds of a range in the instance with this number, which is 0 in no generic (RM 3.5). There
    /// are none where a part of one leaves the base range, or has a divisor of 0.
    pub fn bounds(&self, instance: u32, range: ScalarRange) -> Option<Range>
        ensures { option_map bounds_of result ≡ bounds_in self.now instance (scalar_range_of range) }
    {
        Known::of(self).bounds(instance, range)
    }

    /// The bounds between two values in an instance.
    pub(crate) fn range(
        &self,
        instance: u32,
        first: StaticValue,
        last: StaticValue,
    ) -> Option<Range>
        ensures { option_map bounds_of result ≡ bounds_between
            (value_in self.now instance (static_value_of first)) (value_in self.now instance (static_value_of last)) }
    {
        Known::of(self).range(instance, first, last)
    }

    /// The value of a constant in an instance.
    fn constant(&self, instance: u32, constant: ConstantValue) -> Option<i32>
        ensures { result ≡ value_in self.now instance (constant_of constant) }
    {
        let value = constant.value?;
        Known::of(self).value(owner_in(instance, constant.owner), value)
    }

    /// The value of a static expression, before it is written out, in the instance with this number,
    /// which is 0 in no generic (RM 4.9).
    #[cycle(trees)]
    pub fn tree(&self, instance: u32, tree: &StaticTree) -> Option<i32>
        ensures { result ≡ value_in self.now instance tree.now }
    {
        match &tree.kind {
            StaticKind::Value(value) => self.number(instance, *value),
            StaticKind::Constant(constant) => self.constant(instance, *constant),
            StaticKind::Signed(sign, operand) => signed(*sign, self.tree(instance, operand)?),
            StaticKind::Operations(first, others) => {
                self.chain(instance, self.tree(instance, first), others.as_slice())
            }
        }
    }

    /// The value of a chain of operators behind a value, from the left.
    #[cycle(trees)]
    fn chain(&self, instance: u32, first: Option<i32>, others: &[StaticOperand]) -> Option<i32>
        ensures { result ≡ operated self.now instance first others.now }
    {
        let mut value = first;
        for other in others {
            let operand = self.tree(instance, &other.operand);
            value = operation(other.operator, value, operand);
        }
        value
    }
}
