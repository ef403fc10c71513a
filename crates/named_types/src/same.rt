//! Whether two subtypes are one.

ghost use Rattle.std.specs.Prelude.{◌≡◌};
ghost use Rattle.named_types.specs.Same as spec;

use ada_tree::{Owner, Range, ScalarRange, StaticValue, Subtype};

fn same_owner(one: Owner, other: Owner) -> bool
    ensures { result ≡ spec.same_owner one other }
{
    match (one, other) {
        (Owner::Here, Owner::Here) => true,
        (Owner::Instance(one), Owner::Instance(other)) => one == other,
        _ => false,
    }
}

fn same_value(one: StaticValue, other: StaticValue) -> bool
    ensures { result ≡ spec.same_value one other }
{
    match (one, other) {
        (StaticValue::Number(one), StaticValue::Number(other)) => one == other,
        (StaticValue::Formal(one), StaticValue::Formal(other)) => one == other,
        (StaticValue::Constant(one), StaticValue::Constant(other)) => one == other,
        _ => false,
    }
}

fn same_bounds(one: Range, other: Range) -> bool
    ensures { result ≡ spec.same_bounds one other }
{
    one.first == other.first && one.last == other.last
}

fn same_range(one: ScalarRange, other: ScalarRange) -> bool
    ensures { result ≡ spec.same_range one other }
{
    match (one, other) {
        (ScalarRange::Known(one), ScalarRange::Known(other)) => same_bounds(one, other),
        (ScalarRange::Between(owner, low, high), ScalarRange::Between(other, first, last)) => {
            same_owner(owner, other) && same_value(low, first) && same_value(high, last)
        }
        (ScalarRange::Formal(owner, one), ScalarRange::Formal(other, place)) => {
            same_owner(owner, other) && one == place
        }
        _ => false,
    }
}

/// Whether these are one subtype.
pub(crate) fn same_subtype(one: Subtype, other: Subtype) -> bool
    ensures { result ≡ spec.same_subtype one other }
{
    match (one, other) {
        (Subtype::Scalar(one), Subtype::Scalar(other)) => same_range(one, other),
        (Subtype::Composite(owner, one), Subtype::Composite(other, number)) => {
            same_owner(owner, other) && one == number
        }
        _ => false,
    }
}
