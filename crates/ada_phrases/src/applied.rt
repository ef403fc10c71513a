//! Indices, conversions and calls, and what names are as expressions (Ada RM 2012, 4.1.1, 4.6, 6.4).

ghost use Rattle.std.specs.Prelude.{◌≡◌, IfOk, length, map, option_map};
ghost use Rattle.ada_tree.specs.View.{actuals_of};
ghost use Rattle.ada_rules.specs.Denoted as rules;
ghost use Rattle.ada_entities.specs.EntityViews.{Tables};
ghost use Rattle.ada_entities.specs.Views.{subtype_of};
ghost use Rattle.ada_entities.specs.TypeTable.{tables};
ghost use Rattle.ada_judged.specs.JudgedView.{variable_of, judged_of};
ghost use Rattle.ada_phrases.specs.DenotedView.{denotes};
ghost use Rattle.ada_phrases.specs.Applied.{only, where_single, IsCalled, IsElementOf, IsApplied, IsCallValue, IsBareCall, IsValueOf};

use crate::actuals::actuals;
use crate::handing::provided;
use crate::names::{Denoted, as_value, as_variable};
use crate::routines::{callee_by, parameters_of, result_of};
use crate::scope::Scope;
use ada_entities::{RoutineName, Subtype, Types};
use ada_judged::{Form, Judged, Kind, Spelling, Variable};
use ada_tree::{Actual, Expr};
use cov_base::Pos;
use std::alloc::{AllocError, Global};

/// The only one of these expressions, where there is just one.
fn single(values: Vec<Judged>) -> Option<Judged>
    ensures { (k : Tables) → option_map (judged_of k) result ≡ only (map (judged_of k) values.items) }
{
    let mut values = values;
    let last = values.pop();
    provided(values.is_empty(), last)
}

/// A call of a subprogram with these actuals (RM 6.4).
fn called(
    alloc: Global,
    scope: &Scope<'_>,
    routine: RoutineName,
    values: Vec<Judged>,
) -> Result<Option<Denoted>, AllocError>
    ensures { IfOk result (λ o. IsCalled scope.now routine values.items o) }
{
    let parameters = parameters_of(scope.routines.get(routine.number));
    match actuals(alloc, scope.types, parameters, routine.seen, values)? {
        Some(actuals) => Ok(Some(Denoted::Call(routine, actuals))),
        None => Ok(None),
    }
}

/// A conversion of an expression to a subtype (RM 4.6).
fn converted(
    alloc: Global,
    subtype: Subtype,
    value: Option<Judged>,
) -> Result<Option<Denoted>, AllocError>
    ensures { IfOk result (λ o. (k : Tables) → option_map (denotes k) o
        ≡ where_single (rules.conversion_of (subtype_of k.types subtype)) (option_map (judged_of k) value)) }
{
    match value {
        Some(value) => Ok(as_value(value.converted(alloc, subtype)?)),
        None => Ok(None),
    }
}

/// The element of an array at an index (RM 4.1.1).
fn element(
    types: &Types,
    array: Variable,
    index: Option<Judged>,
) -> Result<Option<Denoted>, AllocError>
    ensures { IfOk result (IsElementOf (tables types.now) array index) }
{
    match index {
        Some(index) => Ok(as_variable(array.element(types, index)?)),
        None => Ok(None),
    }
}

impl Denoted {
    /// What a name denotes with these expressions behind it: a call, a conversion or an element. None
    /// where it is none of these.
    pub fn applied(
        self,
        alloc: Global,
        scope: &Scope<'_>,
        values: Vec<Judged>,
    ) -> Result<Option<Denoted>, AllocError>
        ensures { IfOk result (IsApplied scope.now self values.items) }
    {
        match self {
            Denoted::Routine(routine) => called(alloc, scope, routine, values),
            Denoted::Mark(_, subtype) => converted(alloc, subtype, single(values)),
            Denoted::Variable(variable) => element(scope.types, variable, single(values)),
            other => {
                drop((other, values));
                Ok(None)
            }
        }
    }
}

/// The value of a call of a function, which begins at this place (RM 6.4). None where it is a procedure.
fn call_value(
    scope: &Scope<'_>,
    pos: Pos,
    routine: RoutineName,
    actuals: Vec<Actual>,
) -> Option<Judged>
    ensures { IsCallValue scope.now pos routine actuals.items result }
{
    let found = scope.routines.get(routine.number);
    match result_of(scope.types, found, routine.seen) {
        Some(returned) => Some(Judged {
            form: Form::Plain(Expr::call(callee_by(found, routine.seen), actuals)),
            at: pos,
            kind: Kind::Of(returned.subtype.of),
            known: None,
            values: Some(returned.values),
            spelling: Spelling::Other,
        }),
        None => None,
    }
}

/// The value of a call without actuals: the subprogram has no parameters.
fn bare_call(alloc: Global, scope: &Scope<'_>, pos: Pos, routine: RoutineName) -> Option<Judged>
    ensures { IsBareCall scope.now pos routine result }
{
    if parameters_of(scope.routines.get(routine.number)).is_empty() {
        call_value(scope, pos, routine, Vec::new(alloc))
    } else {
        None
    }
}

impl Denoted {
    /// What a name, which begins at this place, is as an expression. None where it denotes no value.
    pub fn value(self, alloc: Global, scope: &Scope<'_>, pos: Pos) -> Option<Judged>
        ensures { IsValueOf scope.now pos self result }
    {
        match self {
            Denoted::Value(value) => Some(Judged { at: pos, ..value }),
            Denoted::Variable(variable) => Some(Judged::read(pos, variable)),
            Denoted::Routine(routine) => bare_call(alloc, scope, pos, routine),
            Denoted::Call(routine, actuals) => call_value(scope, pos, routine, actuals),
            _ => None,
        }
    }
}
