//! Whether the choices of a case statement name each value once (Ada RM 2012, 5.4).

ghost use Rattle.std.specs.Prelude.{◌≡◌, ◌+ℤ◌, pos, ◌||◌, int_lt, List, map, option_map, IfOk, OnOk};
ghost use Rattle.ada_meaning.specs.Program.{Bounds};
ghost use Rattle.ada_tree.specs.Programs.{bounds_of};
ghost use Rattle.ada_tree.specs.View.{choice_of};
ghost use Rattle.ada_rules.specs.Statics.{Facts, all_named, is_covered, named_by, named_once, sorted};
ghost use Rattle.ada_demands.specs.DemandViews.{is_present};
ghost use Rattle.ada_demands.specs.ChoiceViews.{with_named, is_next};

use crate::demand::Others;
use crate::facts::Instances;
use crate::known::between;
use ada_tree::{Choice, Range};
use std::alloc::{AllocError, Global};

impl Others {
    /// Whether there is an `others`.
    fn is_present(self) -> bool
        ensures { result ≡ is_present self }
    {
        match self {
            Others::Present => true,
            Others::Absent => false,
        }
    }
}

/// Puts ranges in the order of their first values; of two that begin alike the first stays first.
fn sort_by_first(ranges: &mut Vec<Range>) -> Result<(), AllocError>
    ensures { OnOk result ((instances : List Facts) →
        map bounds_of ranges.new.items ≡ sorted instances (map bounds_of ranges.old.items)) }
{
    ranges.sort_by_key(|range| range.first)
}

/// Whether a range is what comes next among these values: it begins no earlier than the next one, and
/// where there is no `others` no later, and ends no later than the last one.
fn is_next(others: Others, next: i64, values: Range, range: Range) -> bool
    ensures { result ≡ is_next (is_present others) next values.last (bounds_of range) }
{
    let first = i64::from(range.first);
    next <= first && range.last <= values.last && (others.is_present() || first <= next)
}

/// What comes behind a range.
fn after(range: Range) -> i64
    ensures { result ≡ range.last +ℤ pos 1 }
{
    i64::from(range.last) + 1
}

/// Whether none of these values has to be named from the next one on.
fn is_complete(others: Others, next: i64, values: Range) -> bool
    ensures { result ≡ (is_present others || int_lt values.last next) }
{
    others.is_present() || i64::from(values.last) < next
}

/// Whether each value of a range is named by one of these, in the order of their first values, or by
/// none where there is an `others`.
fn named_once(others: Others, values: Range, named: &[Range]) -> bool
    ensures { (instances : List Facts) → result
        ≡ named_once instances (is_present others) values.first values.last (map bounds_of named.now) }
{
    let mut next = i64::from(values.first);
    for range in named {
        if !is_next(others, next, values, *range) {
            return false;
        }
        next = after(*range);
    }
    is_complete(others, next, values)
}

impl Instances {
    /// What a choice names in an instance: nothing, where it is `others` or has no value.
    fn named(&self, instance: u32, choice: Choice) -> Option<Range>
        ensures { (bs : List Bounds) → named_by self.now instance (choice_of choice) bs
            ≡ with_named (option_map bounds_of result) bs }
    {
        match choice {
            Choice::Value(value) => {
                let value = self.number(instance, value)?;
                Some(Range {
                    first: value,
                    last: value,
                })
            }
            Choice::Range(first, last) => {
                between(self.number(instance, first), self.number(instance, last))
            }
            Choice::Others => None,
        }
    }

    /// What several choices name in an instance.
    fn all_named(
        &self,
        alloc: Global,
        instance: u32,
        choices: &[Choice],
    ) -> Result<Vec<Range>, AllocError>
        ensures { IfOk result (λ v. map bounds_of v.items
            ≡ all_named self.now instance (map choice_of choices.now)) }
    {
        let mut all = Vec::new(alloc);
        for choice in choices {
            let Some(range) = self.named(instance, *choice) else {
                continue;
            };
            all.push(range)?;
        }
        Ok(all)
    }

    /// Whether choices name each of these values once in an instance, or at most once where there is an
    /// `others`. No choices are right where the values have no bounds.
    pub(crate) fn is_covered(
        &self,
        alloc: Global,
        instance: u32,
        others: Others,
        choices: &[Choice],
        values: Option<Range>,
    ) -> Result<bool, AllocError>
        ensures { IfOk result (λ b. b ≡ is_covered self.now instance (is_present others)
            (map choice_of choices.now) (option_map bounds_of values)) }
    {
        let Some(values) = values else {
            return Ok(false);
        };
        let mut named = self.all_named(alloc, instance, choices)?;
        sort_by_first(&mut named)?;
        Ok(named_once(others, values, named.as_slice()))
    }
}
