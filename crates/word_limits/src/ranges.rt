//! Lengths of index ranges, in one instance or alike in all (Ada RM 2012, 3.6, 12.3).

ghost use Rattle.std.specs.Prelude.{◌≡◌, option_map};
ghost use Rattle.ada_rules.specs.Limits.{length_of};
ghost use Rattle.ada_tree.specs.Programs.{bounds_of};
ghost use Rattle.word_limits.specs.Ranges as ranges;
ghost use Rattle.word_limits.specs.Ranges.{IsSeenFrom, HasLength};

use ada_demands::Instances;
use ada_resolved::values_in;
use ada_tree::{Owner, Range, ScalarRange};

/// Where something of a text is looked at.
#[derive(Clone, Copy)]
pub(crate) enum Scope {
    /// In every instance alike.
    Everywhere,
    /// In the instance with this number; 0 is all that is in no generic.
    Instance(u32),
}

/// Where something of this owner is looked at.
pub(crate) fn owned(scope: Scope, owner: Owner) -> Scope
    ensures { result ≡ ranges.owned scope owner }
{
    match owner {
        Owner::Here => scope,
        Owner::Instance(number) => Scope::Instance(number),
    }
}

/// Whether this is that of one instance, wherever it is looked at.
fn is_instance(owner: Owner) -> bool
    ensures { result ≡ ranges.is_instance owner }
{
    match owner {
        Owner::Here => false,
        Owner::Instance(_) => true,
    }
}

/// Whether a range is the same, wherever it is looked at.
fn is_fixed(range: ScalarRange) -> bool
    ensures { result ≡ ranges.is_fixed range }
{
    match range {
        ScalarRange::Known(_) => true,
        ScalarRange::Between(owner, _, _) => is_instance(owner),
        ScalarRange::Formal(owner, _) => is_instance(owner),
    }
}

/// An instance in which the range is what it is there, if one is known.
fn seen_from(scope: Scope, range: ScalarRange) -> Option<u32>
    ensures { IsSeenFrom scope range result }
{
    match scope {
        Scope::Instance(number) => Some(number),
        Scope::Everywhere => {
            if !is_fixed(range) {
                return None;
            }
            Some(0)
        }
    }
}

/// How many values there are within bounds, if there are any.
fn length_of(bounds: Option<Range>) -> u64
    ensures { result ≡ length_of (option_map bounds_of bounds) }
{
    match bounds {
        Some(range) => values_in(range),
        None => 0,
    }
}

/// How many values a range has there, if it is known.
pub(crate) fn length_in(instances: &Instances, scope: Scope, range: ScalarRange) -> Option<u64>
    ensures { HasLength instances.now scope range result }
{
    let instance = seen_from(scope, range)?;
    Some(length_of(instances.bounds(instance, range)))
}
