//! What the typed program and the demands know of the actuals of an instance (Ada RM 2012, 12.3).

ghost use Rattle.std.specs.Prelude.{◌≡◌, map, IfOk};
ghost use Rattle.ada_tree.specs.Programs.{bounds_of, target_of, formal_actual_of};
ghost use Rattle.ada_tree.specs.View.{callee_of, owner_of, scalar_range_of, static_value_of};
ghost use Rattle.ada_meaning.specs.Arithmetic.{base_range};
ghost use Rattle.ada_rules.specs.Entities.{type_values};
ghost use Rattle.ada_phrases.specs.Routines.{callee_by};
ghost use Rattle.ada_rules.specs.Instances as rules;
ghost use Rattle.ada_entities.specs.Views.{scalar_type_of};
ghost use Rattle.ada_entities.specs.EntityViews.{Tables, values_of, routine_of, routine_by};
ghost use Rattle.ada_entities.specs.RoutineViews.{routine_in};
ghost use Rattle.ada_demands.specs.FactViews.{fact_of};
ghost use Rattle.ada_demands.specs.SpanViews.{listed, Begins};
ghost use Rattle.specifications.specs.Actuals.{actual_of};
ghost use Rattle.specifications.specs.FactCode.{Finds, IsUnitOf, IsMade, AreMade};

use crate::actual::InstanceActual;
use ada_demands::{Fact, Facts, Instances, SpanTable, TypeValues};
use ada_entities::{Routine, RoutineName, ScalarType, Subtype, Values, key, range_seen};
use ada_syntax::Identifier;
use ada_tree::{
    Callee, FormalActual, Instance, Owner, Range, ScalarRange, Static, StaticValue, Target,
};
use cov_base::{Bytes, Pos, Seq, numbered};
use program_walk::Symbols;
use std::alloc::{AllocError, Global};

/// Where the values of actuals are found: what is declared, what instances have, and the values that
/// stand for loop parameters.
#[derive(Clone, Copy)]
pub struct Lookup<'a> {
    pub symbols: &'a Symbols,
    pub instances: &'a Instances,
    pub spans: &'a SpanTable,
}

/// The base range (RM 3.5.4).
fn base_range() -> Range
    ensures { bounds_of result ≡ base_range }
{
    Range {
        first: i32::MIN,
        last: i32::MAX,
    }
}

/// The values that a case statement on a call names, as the subprogram is seen.
fn values_seen(routine: &Routine, seen: Owner) -> Values
    ensures { (k : Tables) → values_of k result ≡ (routine_by k (owner_of seen) (routine_in k routine.now)).values }
{
    match seen {
        Owner::Here => routine.values,
        Owner::Instance(instance) => match routine.result {
            Some(mark) => Values::Within(range_seen(mark.subtype.range, instance)),
            None => Values::Within(Subtype::integer().range),
        },
    }
}

/// What calls come to of a subprogram that is seen so (RM 12.6).
fn target_of(callee: Callee, seen: Owner) -> Target
    ensures { target_of result ≡ rules.target_of (callee_by (owner_of seen) (callee_of callee)) }
{
    match callee {
        Callee::TestGet => Target::TestGet,
        Callee::TestPut | Callee::Formal(_) => Target::TestPut,
        Callee::Subprogram(Owner::Instance(instance), number) => Target::Body(instance, number),
        Callee::Subprogram(Owner::Here, number) => match seen {
            Owner::Here => Target::Body(0, number),
            Owner::Instance(instance) => Target::Body(instance, number),
        },
    }
}

impl Lookup<'_> {
    /// The value of an actual for a formal object.
    fn number(&self, value: StaticValue) -> i32
        ensures { result ≡ rules.number_of self.now.instances.now (static_value_of value) }
    {
        let value = Static::Value(Owner::Here, value);
        self.instances.number(0, value).unwrap_or(0)
    }

    /// The bounds of a range.
    fn bounds(&self, range: ScalarRange) -> Range
        ensures { bounds_of result ≡ rules.bounds_of self.now.instances.now (scalar_range_of range) }
    {
        self.instances.bounds(0, range).unwrap_or(base_range())
    }

    /// The bounds of values that a case statement names.
    fn values(&self, values: Values) -> Result<Range, AllocError>
        ensures { IfOk result (λ r. (k : Tables) → Begins (listed self.now.spans.now) k
            → bounds_of r ≡ rules.values_of self.now.instances.now (values_of k values)) }
    {
        let found = self.instances.values(self.spans, 0, values)?;
        Ok(found.unwrap_or(base_range()))
    }

    /// The bounds of the values of a type.
    fn type_values(&self, of: ScalarType) -> Result<Range, AllocError>
        ensures { IfOk result (λ r. (k : Tables) → Begins (listed self.now.spans.now) k
            → bounds_of r ≡ rules.values_of self.now.instances.now (type_values (scalar_type_of of))) }
    {
        self.values(TypeValues::of(of)?.values())
    }

    /// The bounds of the result of a subprogram. One whose number leads nowhere has no memory.
    fn result_bounds(&self, routine: RoutineName) -> Result<Range, AllocError>
        ensures { IfOk result (λ r. Finds self.now (λ k. bounds_of r
            ≡ rules.values_of self.now.instances.now (routine_of k routine).values)) }
    {
        let Some(found) = self.symbols.subprogram(routine.number) else {
            return Err(AllocError);
        };
        self.values(values_seen(found, routine.seen))
    }

    /// What calls of a subprogram come to. One whose number leads nowhere has no memory.
    fn target(&self, routine: RoutineName) -> Result<Target, AllocError>
        ensures { IfOk result (λ t. Finds self.now (λ k. target_of t ≡ rules.target_of (routine_of k routine).callee)) }
    {
        let Some(found) = self.symbols.subprogram(routine.number) else {
            return Err(AllocError);
        };
        Ok(target_of(found.callee, routine.seen))
    }

    /// What the demands know of an actual.
    fn fact(&self, actual: InstanceActual) -> Result<Fact, AllocError>
        ensures { IfOk result (λ f. Finds self.now (λ k. fact_of f
            ≡ rules.fact_of self.now.instances.now (actual_of k actual))) }
    {
        match actual {
            InstanceActual::Object(value) => Ok(Fact::Number(self.number(value))),
            InstanceActual::Type(of, range) => {
                let values = self.type_values(of)?;
                Ok(Fact::Type(self.bounds(range), values))
            }
            InstanceActual::Routine(routine) => Ok(Fact::Result(self.result_bounds(routine)?)),
        }
    }

    /// What the typed program knows of an actual.
    fn typed(&self, actual: InstanceActual) -> Result<FormalActual, AllocError>
        ensures { IfOk result (λ a. Finds self.now (λ k. formal_actual_of a
            ≡ rules.typed_actual self.now.instances.now (actual_of k actual))) }
    {
        match actual {
            InstanceActual::Object(value) => Ok(FormalActual::Object(
                Static::Value(Owner::Here, value),
                self.number(value),
            )),
            InstanceActual::Type(of, range) => {
                let values = self.type_values(of)?;
                Ok(FormalActual::Type(range, self.bounds(range), values))
            }
            InstanceActual::Routine(routine) => {
                Ok(FormalActual::Subprogram(self.target(routine)?))
            }
        }
    }

    /// What the demands know of actuals.
    fn all_facts(&self, alloc: Global, actuals: &[InstanceActual]) -> Result<Seq<Fact>, AllocError>
        ensures { IfOk result (λ fs. Finds self.now (λ k. map fact_of fs
            ≡ map (λ a. rules.fact_of self.now.instances.now (actual_of k a)) actuals.now)) }
    {
        let mut facts = Vec::new(alloc);
        for actual in actuals {
            facts.push(self.fact(*actual)?)?;
        }
        Ok(Seq::from(facts))
    }

    /// What the typed program knows of actuals.
    fn all_typed(
        &self,
        alloc: Global,
        actuals: &[InstanceActual],
    ) -> Result<Seq<FormalActual>, AllocError>
        ensures { IfOk result (λ xs. Finds self.now (λ k. map formal_actual_of xs
            ≡ map (λ a. rules.typed_actual self.now.instances.now (actual_of k a)) actuals.now)) }
    {
        let mut typed = Vec::new(alloc);
        for actual in actuals {
            typed.push(self.typed(*actual)?)?;
        }
        Ok(Seq::from(typed))
    }

    /// The number of a generic's unit, or for what is no generic a number that is none.
    fn generic_unit(&self, generic: Option<u32>) -> Result<u32, AllocError>
        ensures { IfOk result (IsUnitOf self.now.symbols.now generic) }
    {
        match generic {
            Some(unit) => Ok(unit),
            None => numbered(self.symbols.count_units()),
        }
    }

    /// What the demands know of an instance of this generic with these actuals. The values of constants
    /// are there when all bodies were looked at.
    pub fn facts(
        &self,
        alloc: Global,
        generic: Option<u32>,
        actuals: &[InstanceActual],
    ) -> Result<Facts, AllocError>
        ensures { IfOk result (AreMade self.now generic actuals.now) }
    {
        Ok(Facts {
            generic: self.generic_unit(generic)?,
            formals: self.all_facts(alloc, actuals)?,
            constants: Seq::from(Vec::new(alloc)),
        })
    }

    /// An instance of this generic with these actuals, whose text begins at this place, as the typed
    /// program has it (RM 12.3). The values of constants are there when all bodies were looked at.
    pub fn instance(
        &self,
        alloc: Global,
        pos: Pos,
        name: &Identifier,
        generic: Option<u32>,
        actuals: &[InstanceActual],
    ) -> Result<Instance, AllocError>
        ensures { IfOk result (IsMade self.now pos name.now generic actuals.now) }
    {
        Ok(Instance {
            name: Bytes::from(key(alloc, name)?),
            place: pos,
            generic: self.generic_unit(generic)?,
            actuals: self.all_typed(alloc, actuals)?,
            constants: Seq::from(Vec::new(alloc)),
        })
    }
}
