//! Subprograms as they are seen: in their own text, or through an instance (Ada RM 2012, 6.1, 12.3).

ghost use Rattle.std.specs.Prelude.{◌≡◌, map, option_map};
ghost use Rattle.ada_tree.specs.View.{owner_of, callee_of};
ghost use Rattle.ada_entities.specs.Views.{subtype_of, subtype_by};
ghost use Rattle.ada_entities.specs.TypeTable.{tables};
ghost use Rattle.ada_entities.specs.EntityViews.{Tables, routine_by};
ghost use Rattle.ada_entities.specs.RoutineViews.{parameter_of, routine_from};
ghost use Rattle.ada_phrases.specs.Routines.{callee_by, IsSeenResult, IsReturned};

use ada_entities::{Parameter, ResultMark, Routine, Subtype, Types, Values};
use ada_tree::{Callee, Owner};

/// A subtype as it is seen.
pub(crate) fn subtype_by(types: &Types, subtype: Subtype, seen: Owner) -> Subtype
    ensures { let k = tables types.now in subtype_of k result ≡ subtype_by k (owner_of seen) (subtype_of k subtype) }
{
    match seen {
        Owner::Here => subtype,
        Owner::Instance(instance) => types.subtype_seen(subtype, instance),
    }
}

/// The parameters of a subprogram, as its own text has them.
pub fn parameters_of(routine: Option<&Routine>) -> &[Parameter]
    ensures { (k : Tables) → map (parameter_of k.types) result.now ≡ (routine_from k routine.entry).parameters }
{
    match routine {
        Some(routine) => routine.parameters.as_slice(),
        None => &[],
    }
}

/// What calls of a subprogram name, as its own text has it.
fn callee_of(routine: Option<&Routine>) -> Callee
    ensures { (k : Tables) → callee_of result ≡ (routine_from k routine.entry).callee }
{
    match routine {
        Some(routine) => routine.callee,
        None => Callee::TestPut,
    }
}

/// What calls name, as it is seen.
fn callee_seen(callee: Callee, seen: Owner) -> Callee
    ensures { callee_of result ≡ callee_by (owner_of seen) (callee_of callee) }
{
    match (callee, seen) {
        (Callee::Subprogram(Owner::Here, number), Owner::Instance(instance)) => {
            Callee::Subprogram(Owner::Instance(instance), number)
        }
        _ => callee,
    }
}

/// What calls of a subprogram name, as it is seen.
pub fn callee_by(routine: Option<&Routine>, seen: Owner) -> Callee
    ensures { (k : Tables) → callee_of result ≡ (routine_by k (owner_of seen) (routine_from k routine.entry)).callee }
{
    callee_seen(callee_of(routine), seen)
}

/// The result of a function: its subtype, and the values that a case statement on a call names.
#[derive(Clone, Copy)]
pub struct Returned {
    pub subtype: Subtype,
    pub values: Values,
}

/// A function's result as it is seen.
fn returned_by(types: &Types, mark: ResultMark, values: Values, seen: Owner) -> Returned
    ensures { IsSeenResult (tables types.now) mark values (owner_of seen) result }
{
    match seen {
        Owner::Here => Returned {
            subtype: mark.subtype,
            values,
        },
        Owner::Instance(instance) => {
            let subtype = types.subtype_seen(mark.subtype, instance);
            Returned {
                subtype,
                values: Values::Within(subtype.range),
            }
        }
    }
}

/// The result of a subprogram as it is seen, if it is a function.
pub fn result_of(types: &Types, routine: Option<&Routine>, seen: Owner) -> Option<Returned>
    ensures { IsReturned (tables types.now) routine.entry (owner_of seen) result }
{
    match routine {
        Some(routine) => match routine.result {
            Some(mark) => Some(returned_by(types, mark, routine.values, seen)),
            None => None,
        },
        None => None,
    }
}
