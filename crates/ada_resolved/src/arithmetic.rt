//! The operators of static expressions (Ada RM 2012, 4.5): none where a result leaves the base range.

ghost use Rattle.std.specs.Prelude.{◌≡◌, pos};
ghost use Rattle.ada_meaning.specs.Arithmetic as arithmetic;
ghost use Rattle.ada_meaning.specs.Statics as statics;
ghost use Rattle.ada_meaning.specs.Types as type;
ghost use Rattle.ada_tree.specs.View.{operator_of, sign_of};
ghost use Rattle.ada_resolved.specs.Signs.{differ};

use ada_tree::{Operator, Range, Sign};

/// An operator on one integer (RM 4.5.4, 4.5.6).
pub fn signed(sign: Sign, operand: i32) -> Option<i32>
    ensures { result ≡ statics.in_base (arithmetic.sign_of (sign_of sign) operand) }
{
    match sign {
        Sign::Plus => Some(operand),
        Sign::Minus => operand.checked_neg(),
        Sign::Absolute => operand.checked_abs(),
    }
}

/// An operator on two integers (RM 4.5.3, 4.5.5); none where the divisor is 0.
pub fn computed(operator: Operator, left: i32, right: i32) -> Option<i32>
    ensures { result ≡ statics.computed (operator_of operator) left right }
{
    match operator {
        Operator::Add => left.checked_add(right),
        Operator::Subtract => left.checked_sub(right),
        Operator::Multiply => left.checked_mul(right),
        Operator::Divide => left.checked_div(right),
        Operator::Modulus => modulus(left, right),
        Operator::Remainder => remainder(left, right),
    }
}

/// `rem`: what a division that truncates toward zero leaves (RM 4.5.5).
fn remainder(left: i32, right: i32) -> Option<i32>
    ensures { result ≡ statics.computed type.remainder left right }
{
    if right == 0 {
        return None;
    }
    Some(left.wrapping_rem(right))
}

/// Whether the signs of two numbers differ, where neither is 0.
fn signs_differ(left: i32, right: i32) -> bool
    ensures { result ≡ differ left right }
{
    left < 0 && 0 < right || 0 < left && right < 0
}

/// `mod`: the remainder, moved by one divisor where the signs differ (RM 4.5.5).
fn modulus(left: i32, right: i32) -> Option<i32>
    ensures { result ≡ statics.computed type.modulus left right }
{
    if right == 0 {
        return None;
    }
    let rest = left.wrapping_rem(right);
    if signs_differ(rest, right) {
        return rest.checked_add(right);
    }
    Some(rest)
}

/// How many values a range has; none in a null range (RM 3.5).
pub fn values_in(range: Range) -> u64
    ensures { result ≡ arithmetic.count_between range.first range.last }
{
    u64::try_from(i64::from(range.last) - i64::from(range.first) + 1).unwrap_or(0)
}

/// `Length` of an array with this index (RM 3.6.2).
pub fn length(range: Range) -> Option<i32>
    ensures { result ≡ statics.in_base (pos (arithmetic.count_between range.first range.last)) }
{
    i32::try_from(values_in(range)).ok()
}
