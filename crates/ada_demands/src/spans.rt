//! The values that case statements name (Ada RM 2012, 5.4).

ghost use Rattle.std.specs.Prelude.{◌≡◌, ◌≤◌, ◌^◌, pos, ◌-ℤ◌, [], ◌∷◌, ◌++◌, option_map, slice_get, IfOk, IfErr, OnOk};
ghost use Rattle.std.specs.Option.{option_copied};
ghost use Rattle.ada_tree.specs.Programs.{bounds_of};
ghost use Rattle.ada_tree.specs.View.{scalar_range_of};
ghost use Rattle.ada_rules.specs.Types.{base, numbers};
ghost use Rattle.ada_rules.specs.Entities.{type_values};
ghost use Rattle.ada_judged.specs.ada_entities.specs.EntityViews.{Tables, values_of};
ghost use Rattle.ada_judged.specs.ada_entities.specs.Views.{scalar_type_of};
ghost use Rattle.ada_rules.specs.Statics.{within, formal_values, result_bounds_of_fact, spans_in, type_bounds_of_fact};
ghost use Rattle.ada_demands.specs.FactViews.{fact_of};
ghost use Rattle.ada_demands.specs.SpanEntries.{listed_of, type_values_of};
ghost use Rattle.ada_demands.specs.SpanViews.{listed, Begins, IsListed, AreValues};

use crate::facts::{Fact, Instances};
use crate::known::between;
use ada_judged::{FormalKind, ScalarType, StaticTree, Values};
use ada_tree::{Range, ScalarRange};
use cov_base::{numbered, signed_numbered};
use std::alloc::{AllocError, Global};

/// The values of a type (RM 3.5).
#[derive(Clone, Copy)]
pub enum TypeValues {
    Within(ScalarRange),
    /// Those of the type that an instance has for the formal type at this place.
    OfFormalType(u32),
}

/// The values of a loop parameter with bounds (RM 5.5): those between the bounds, where both have values
/// in the instance, and else those of the type.
pub struct ListedSpans {
    pub first: StaticTree,
    pub last: StaticTree,
    pub otherwise: TypeValues,
}

// Written out: a derived drop is proved anew in each crate above.
impl Drop for ListedSpans {
    fn drop(self) {
        let ListedSpans {
            first: _,
            last: _,
            otherwise: _,
        } = self;
    }
}

/// The table of values that stand for loop parameters, by number.
pub struct SpanTable {
    entries: Vec<ListedSpans>,
}

// Written out: a derived drop is proved anew in each crate above.
impl Drop for SpanTable {
    fn drop(self) {
        let SpanTable { entries: _ } = self;
    }
}

impl TypeValues {
    /// The values of a scalar type. An enumeration with more than 2^31 - 1 literals has no memory.
    pub fn of(of: ScalarType) -> Result<TypeValues, AllocError>
        ensures { IfOk result (λ v. type_values_of v ≡ type_values (scalar_type_of of)) }
    {
        match of {
            ScalarType::Enumeration(_, count) => positions(count),
            ScalarType::Formal(_, place, FormalKind::Discrete) => Ok(TypeValues::OfFormalType(
                place,
            )),
            ScalarType::Formal(_, _, FormalKind::Integer) => Ok(TypeValues::Within(base_range())),
            ScalarType::Integer(_) => Ok(TypeValues::Within(base_range())),
        }
    }

    /// The same, as an object's or a call's are told.
    pub fn values(self) -> Values
        ensures { (k : Tables) → values_of k result ≡ type_values_of self }
    {
        match self {
            TypeValues::Within(range) => Values::Within(range),
            TypeValues::OfFormalType(place) => Values::OfFormalType(place),
        }
    }
}

/// The values of the base range (RM 3.5.4).
pub(crate) fn base_range() -> ScalarRange
    ensures { scalar_range_of result ≡ base }
{
    ScalarRange::Known(Range {
        first: i32::MIN,
        last: i32::MAX,
    })
}

/// The position numbers of so many literals (RM 3.5.1). Those of 2^31 literals have no memory.
fn positions(count: u32) -> Result<TypeValues, AllocError>
    ensures values { IfOk result (λ v. type_values_of v ≡ within (numbers (pos 0) (pos count -ℤ pos 1))) }
    ensures refused { IfErr result (λ e. 2 ^ 31 ≤ count) }
{
    let count = signed_numbered(count as usize)?;
    Ok(TypeValues::Within(ScalarRange::Known(Range {
        first: 0,
        last: count - 1,
    })))
}

impl SpanTable {
    /// No values.
    pub fn new(alloc: Global) -> SpanTable
        ensures { listed result ≡ [] }
    {
        SpanTable {
            entries: Vec::new(alloc),
        }
    }

    /// Adds values behind the others, and answers how they are named. A table with more than 2^32 - 1
    /// has no memory.
    pub fn add(&mut self, values: ListedSpans) -> Result<Values, AllocError>
        ensures named { IfOk result (IsListed (listed self.new) (listed_of values)) }
        ensures added { OnOk result (listed self.new ≡ listed self.old ++ values ∷ []) }
        ensures begins { OnOk result ((k : Tables) → Begins (listed self.new) k → Begins (listed self.old) k) }
    {
        let number = numbered(self.entries.as_slice().len())?;
        self.entries.push(values)?;
        Ok(Values::Listed(number))
    }

    /// The values with a number.
    fn get(&self, number: u32) -> Option<&ListedSpans>
        ensures { option_copied result ≡ slice_get (listed self.now) number }
    {
        self.entries.get(number as usize)
    }
}

/// The bounds of the type that stands for a formal type (RM 12.5).
fn bounds_of_type(fact: Fact) -> Option<Range>
    ensures { option_map bounds_of result ≡ type_bounds_of_fact (Some (fact_of fact)) }
{
    match fact {
        Fact::Type(_, bounds) => Some(bounds),
        _ => None,
    }
}

/// The bounds of the result of what stands for a formal subprogram (RM 12.6).
fn bounds_of_result(fact: Fact) -> Option<Range>
    ensures { option_map bounds_of result ≡ result_bounds_of_fact (Some (fact_of fact)) }
{
    match fact {
        Fact::Result(bounds) => Some(bounds),
        _ => None,
    }
}

impl Instances {
    /// The bounds of the type that an instance has for the formal type at this place.
    fn formal_type(&self, instance: u32, place: u32) -> Option<Range>
        ensures { option_map bounds_of result ≡ spans_in self.now instance (formal_values place) }
    {
        bounds_of_type(self.formal(instance, place)?)
    }

    /// The bounds of the values of a type in an instance.
    fn type_values(&self, instance: u32, values: TypeValues) -> Option<Range>
        ensures { option_map bounds_of result ≡ spans_in self.now instance (type_values_of values) }
    {
        match values {
            TypeValues::Within(range) => self.bounds(instance, range),
            TypeValues::OfFormalType(place) => self.formal_type(instance, place),
        }
    }

    /// The bounds of the values of a loop parameter in an instance.
    fn listed(&self, instance: u32, values: &ListedSpans) -> Option<Range>
        ensures { option_map bounds_of result ≡ spans_in self.now instance (listed_of values.now) }
    {
        let first = self.tree(instance, &values.first);
        let last = self.tree(instance, &values.last);
        between(first, last).or(self.type_values(instance, values.otherwise))
    }

    /// The bounds of the values that a case statement names, in the instance with this number, which is 0
    /// in no generic. Values with a number that is not in the table have no memory.
    pub fn values(
        &self,
        table: &SpanTable,
        instance: u32,
        values: Values,
    ) -> Result<Option<Range>, AllocError>
        ensures { IfOk result (λ b. AreValues self.now (listed table.now) instance values (option_map bounds_of b)) }
    {
        match values {
            Values::Within(range) => Ok(self.bounds(instance, range)),
            Values::OfFormalType(place) => Ok(self.formal_type(instance, place)),
            Values::OfFormalResult(place) => {
                Ok(
                    self.formal(instance, place)
                        .and_then(|fact| bounds_of_result(fact)),
                )
            }
            Values::Listed(number) => match table.get(number) {
                Some(listed) => Ok(self.listed(instance, listed)),
                None => Err(AllocError),
            },
        }
    }
}
