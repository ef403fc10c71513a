//! Actual parameters (Ada RM 2012, 6.4, 6.4.1).

ghost use Rattle.std.specs.Prelude.{◌≡◌, IfOk, option_map};
ghost use Rattle.ada_meaning.specs.Tree as tree;
ghost use Rattle.ada_tree.specs.View.{owner_of, with_actual};
ghost use Rattle.ada_rules.specs.Denoted as rules;
ghost use Rattle.ada_entities.specs.Views.{type_of};
ghost use Rattle.ada_entities.specs.TypeTable.{tables};
ghost use Rattle.ada_entities.specs.EntityViews.{Tables, is_variable};
ghost use Rattle.ada_judged.specs.JudgedView.{variable_of, variable_in, is_name};
ghost use Rattle.ada_phrases.specs.Actuals.{IsByName, IsComposite, IsRead, IsByValue, IsByObject, IsPassedByName, IsPassed, IsNext, AreActuals};

use crate::handing::provided;
use crate::routines::subtype_by;
use ada_entities::{Access, AdaType, Parameter, Subtype, Types};
use ada_judged::{Form, Judged, Spelling, Variable};
use ada_tree::{Actual, Mode, Owner};
use std::alloc::{AllocError, Global};

/// A variable for a parameter of this type, which may be written.
fn written(of: AdaType, variable: Variable) -> Actual
    ensures { (k : Tables) (rest : tree.Actuals)
        → with_actual result rest ≡ rules.written (type_of k.types of) (variable_of k variable) rest }
{
    if of.is_scalar() {
        return Actual::Part(variable.object, variable.parts, variable.subtype.range);
    }
    Actual::Composite(variable.object, variable.parts)
}

/// Whether an object may be assigned (RM 3.3).
fn is_variable(access: Access) -> bool
    ensures { result ≡ is_variable access }
{
    matches!(access, Access::Variable)
}

/// An object for a parameter of this subtype, which may be written: a variable of its type (RM 6.4.1).
fn by_name(subtype: Subtype, variable: Variable) -> Option<Actual>
    ensures { IsByName subtype variable result }
{
    if is_variable(variable.access) && variable.subtype.of.is_same(subtype.of) {
        Some(written(subtype.of, variable))
    } else {
        None
    }
}

/// The object or the part of one that an expression is.
fn object_of(form: Form) -> Option<Variable>
    ensures { (k : Tables) → option_map (variable_of k) result ≡ variable_in k form }
{
    match form {
        Form::Object(variable) => Some(variable),
        other => {
            drop(other);
            None
        }
    }
}

/// An object as a whole, where an expression is one.
fn composite(form: Form) -> Option<Actual>
    ensures { IsComposite form result }
{
    match object_of(form) {
        Some(variable) => Some(Actual::Composite(variable.object, variable.parts)),
        None => None,
    }
}

/// An expression of a parameter's type, which is read: an object as a whole, where the type is composite.
fn read(of: AdaType, form: Form) -> Option<Actual>
    ensures { IsRead of form result }
{
    if of.is_scalar() {
        Some(Actual::Expression(form.into_expr()))
    } else {
        composite(form)
    }
}

/// An expression for a parameter of this subtype, which is read (RM 6.4.1).
fn by_value(subtype: Subtype, value: Judged) -> Option<Actual>
    ensures { IsByValue subtype value result }
{
    let fits = value.kind.fits(subtype.of);
    provided(fits, read(subtype.of, value.form))
}

/// An expression for a parameter of this subtype, which may be written: the name of an object
/// (RM 6.4.1).
fn by_object(subtype: Subtype, form: Form) -> Option<Actual>
    ensures { IsByObject subtype form result }
{
    match object_of(form) {
        Some(variable) => by_name(subtype, variable),
        None => None,
    }
}

/// Whether an expression is just a name.
fn is_name(spelling: Spelling) -> bool
    ensures { result ≡ is_name spelling }
{
    matches!(spelling, Spelling::Name)
}

/// The same of an expression that has to be a name.
fn passed_by_name(subtype: Subtype, value: Judged) -> Option<Actual>
    ensures { IsPassedByName subtype value result }
{
    provided(is_name(value.spelling), by_object(subtype, value.form))
}

/// An expression for a parameter of this subtype, as its mode wants it (RM 6.4.1).
fn passed(mode: Mode, subtype: Subtype, value: Judged) -> Option<Actual>
    ensures { IsPassed mode subtype value result }
{
    match mode {
        Mode::In => by_value(subtype, value),
        Mode::Out | Mode::InOut => passed_by_name(subtype, value),
    }
}

/// The actual of a parameter, which is the last of these expressions, and is taken off.
fn next_actual(
    types: &Types,
    parameter: &Parameter,
    seen: Owner,
    values: &mut Vec<Judged>,
) -> Option<Actual>
    ensures { IsNext (tables types.now) parameter.now (owner_of seen) values.old.items values.new.items result }
{
    match values.pop() {
        Some(value) => {
            let subtype = subtype_by(types, parameter.subtype, seen);
            passed(parameter.mode, subtype, value)
        }
        None => None,
    }
}

/// Actuals for parameters as they are seen. None where there are not as many, or one is not as its
/// parameter wants it (RM 6.4).
pub fn actuals(
    alloc: Global,
    types: &Types,
    parameters: &[Parameter],
    seen: Owner,
    values: Vec<Judged>,
) -> Result<Option<Vec<Actual>>, AllocError>
    ensures { IfOk result (λ o. AreActuals (tables types.now) parameters.now (owner_of seen) values.items o) }
{
    let mut values = values;
    values.reverse();
    let mut actuals = Vec::new(alloc);
    for parameter in parameters {
        let Some(actual) = next_actual(types, parameter, seen, &mut values) else {
            return Ok(None);
        };
        actuals.push(actual)?;
    }
    if values.is_empty() {
        Ok(Some(actuals))
    } else {
        Ok(None)
    }
}
