//! Whether demands are met in instances (Ada RM 2012, 4.9, 12.3).

ghost use Rattle.std.specs.Prelude.{◌≡◌, List, option_map, IfOk};
ghost use Rattle.ada_tree.specs.Programs.{bounds_of};
ghost use Rattle.ada_rules.specs.Statics.{Facts, is_in, is_ordered};
ghost use Rattle.ada_demands.specs.SpanViews.{listed};
ghost use Rattle.ada_demands.specs.Meeting.{Holds, AllHold, IsUnmetOf};

use crate::demand::{Demand, Test};
use crate::facts::Instances;
use crate::spans::SpanTable;
use ada_tree::Range;
use cov_base::Pos;
use std::alloc::{AllocError, Global};

/// Whether there is a value within bounds.
fn is_in(value: Option<i32>, bounds: Option<Range>) -> bool
    ensures { (instances : List Facts) → result ≡ is_in instances value (option_map bounds_of bounds) }
{
    match (value, bounds) {
        (Some(value), Some(bounds)) => bounds.first <= value && value <= bounds.last,
        _ => false,
    }
}

/// Whether there are bounds, the first of which is not above the last one.
fn is_ordered(bounds: Option<Range>) -> bool
    ensures { (instances : List Facts) → result ≡ is_ordered instances (option_map bounds_of bounds) }
{
    match bounds {
        Some(bounds) => bounds.first <= bounds.last,
        None => false,
    }
}

impl Instances {
    /// Whether a test holds in an instance.
    fn holds(
        &self,
        alloc: Global,
        spans: &SpanTable,
        instance: u32,
        test: &Test,
    ) -> Result<bool, AllocError>
        ensures { IfOk result (Holds self.now (listed spans.now) instance test.now) }
    {
        match test {
            Test::Lies(value, range) => {
                Ok(is_in(self.tree(instance, value), self.bounds(instance, *range)))
            }
            Test::Chosen(value, values) => {
                let bounds = self.values(spans, instance, *values)?;
                Ok(is_in(self.tree(instance, value), bounds))
            }
            Test::Ordered(first, last) => Ok(is_ordered(self.range(instance, *first, *last))),
            Test::Covers(values, others, choices) => {
                let bounds = self.values(spans, instance, *values)?;
                self.is_covered(alloc, instance, *others, choices.as_slice(), bounds)
            }
        }
    }

    /// Whether a test holds in each of these instances.
    pub(crate) fn all_hold(
        &self,
        alloc: Global,
        spans: &SpanTable,
        places: &[u32],
        test: &Test,
    ) -> Result<bool, AllocError>
        ensures { IfOk result (AllHold self.now (listed spans.now) places.now test.now) }
    {
        for instance in places {
            if !self.holds(alloc, spans, *instance, test)? {
                return Ok(false);
            }
        }
        Ok(true)
    }

    /// Where the first of these demands is made that is not met in an instance.
    pub(crate) fn unmet_of(
        &self,
        alloc: Global,
        spans: &SpanTable,
        instance: u32,
        demands: &[&Demand],
    ) -> Result<Option<Pos>, AllocError>
        ensures { IfOk result (IsUnmetOf self.now (listed spans.now) instance demands.now) }
    {
        for demand in demands {
            if !self.holds(alloc, spans, instance, &demand.test)? {
                return Ok(Some(demand.pos));
            }
        }
        Ok(None)
    }
}
