//! The operations that operators stand for (Ada RM 2012, 4.5).

ghost use Rattle.std.specs.Prelude.{◌≡◌};
ghost use Rattle.ada_tree.specs.Programs.{bounds_of};
ghost use Rattle.ada_tree.specs.View.{sign_of, operator_of, relation_of};
ghost use Rattle.statement_code.specs.Values.{within, sign_on, operator_for, relation_for};

use ada_tree::{Operator, Range, Relation, Sign};
use kernel_ir::{Simple, Slot};

/// The base range of each integer type, which is that of Integer too (RM 3.5.4).
pub(crate) const INTEGER: Range = Range {
    first: i32::MIN,
    last: i32::MAX,
};

/// Raises Constraint_Error unless a slot's value lies within a range.
pub(crate) fn within(slot: Slot, range: Range) -> Simple
    ensures { result ≡ within slot (bounds_of range) }
{
    Simple::Within {
        slot,
        low: range.first,
        high: range.last,
    }
}

/// An operator on one integer, on a slot. Unary plus is a check against the base range.
pub(crate) fn sign_on(slot: Slot, sign: Sign) -> Simple
    ensures { result ≡ sign_on slot (sign_of sign) }
{
    match sign {
        Sign::Plus => within(slot, INTEGER),
        Sign::Minus => Simple::Negate {
            to: slot,
            from: slot,
        },
        Sign::Absolute => Simple::Absolute {
            to: slot,
            from: slot,
        },
    }
}

/// An operator on two integers.
pub(crate) fn operator_for(operator: Operator) -> kernel_ir::Operator
    ensures { result ≡ operator_for (operator_of operator) }
{
    match operator {
        Operator::Add => kernel_ir::Operator::Add,
        Operator::Subtract => kernel_ir::Operator::Subtract,
        Operator::Multiply => kernel_ir::Operator::Multiply,
        Operator::Divide => kernel_ir::Operator::Divide,
        Operator::Modulus => kernel_ir::Operator::Modulo,
        Operator::Remainder => kernel_ir::Operator::Remainder,
    }
}

/// A relation of two values.
pub(crate) fn relation_for(relation: Relation) -> kernel_ir::Relation
    ensures { result ≡ relation_for (relation_of relation) }
{
    match relation {
        Relation::Equal => kernel_ir::Relation::Equal,
        Relation::NotEqual => kernel_ir::Relation::Unequal,
        Relation::Less => kernel_ir::Relation::Less,
        Relation::LessOrEqual => kernel_ir::Relation::AtMost,
        Relation::Greater => kernel_ir::Relation::Greater,
        Relation::GreaterOrEqual => kernel_ir::Relation::AtLeast,
    }
}
