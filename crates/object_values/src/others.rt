//! `(others => ..)` (Ada RM 2012, 4.3.3).

ghost use Rattle.std.specs.Prelude.{◌≡◌, option_map};
ghost use Rattle.ada_entities.specs.Views.{TypeTables};
ghost use Rattle.object_values.specs.Values.{value_in, single_in, in_indices};

use crate::single::Single;
use ada_tree::{Indices, NewValue};

/// A value in `(others => ..)`, one for each of these indices, where there are some.
pub fn in_others(indices: Option<Indices>, value: Single) -> NewValue
    ensures { (k : TypeTables) → value_in k result ≡ in_indices indices (single_in k value) }
{
    match (indices, value) {
        (None, Single::Scalar(range, expr)) => NewValue::Scalar(range, expr),
        (None, Single::Composite(owner, number, object, parts)) => {
            NewValue::Composite(owner, number, object, parts)
        }
        (Some(indices), Single::Scalar(range, expr)) => {
            NewValue::OthersScalar(indices, range, expr)
        }
        (Some(indices), Single::Composite(owner, number, object, parts)) => {
            NewValue::OthersComposite(indices, owner, number, object, parts)
        }
    }
}

/// The same of a value where there is one.
pub(crate) fn placed(indices: Option<Indices>, value: Option<Single>) -> Option<NewValue>
    ensures { (k : TypeTables) → option_map (value_in k) result
        ≡ option_map (in_indices indices) (option_map (single_in k) value) }
{
    match value {
        Some(value) => Some(in_others(indices, value)),
        None => {
            drop(indices);
            None
        }
    }
}
