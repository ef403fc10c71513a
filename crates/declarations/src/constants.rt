//! What is known of the values of constants (Ada RM 2012, 3.3.1, 4.9).

ghost use Rattle.std.specs.Prelude.{◌≡◌, Some, option_map, IfOk};
ghost use Rattle.ada_meaning.specs.Statics as statics;
ghost use Rattle.ada_tree.specs.declared.types.StaticValue.TheVariants as value;
ghost use Rattle.ada_tree.specs.View.{scalar_range_of, static_value_of};
ghost use Rattle.ada_rules.specs.Expressions.{entered_constant};
ghost use Rattle.ada_rules.specs.Declarations as rules;
ghost use Rattle.ada_rules.specs.Statics.{bounds_in, value_in};
ghost use Rattle.ada_entities.specs.EntityViews.{constant_of, value_or};
ghost use Rattle.declarations.specs.Constants.{Enters, GivesKnown, IsLocalKnown, IsLibraryConstant, IsLocalConstant};

use ada_entities::{ConstantValue, Subtype};
use ada_judged::StaticTree;
use ada_syntax::Constancy;
use ada_tree::{Owner, ScalarRange, Static, StaticValue};
use program_walk::{Instances, Statics};
use std::alloc::{AllocError, Global};

/// A value of this text.
fn own(value: Option<StaticValue>) -> ConstantValue
    ensures { constant_of result ≡ value_or value }
{
    ConstantValue {
        owner: Owner::Here,
        value,
    }
}

/// A number of this text, where there is one.
fn own_number(known: Option<i32>) -> ConstantValue
    ensures { constant_of result ≡ value_or (option_map value.Number known) }
{
    match known {
        Some(number) => own(Some(StaticValue::Number(number))),
        None => own(None),
    }
}

/// Enters a constant of a generic by a value of its text. The constant is known by its number.
fn entered(
    alloc: Global,
    statics: &mut Statics,
    generic: u32,
    range: ScalarRange,
    value: StaticValue,
) -> Result<ConstantValue, AllocError>
    ensures { IfOk result (Enters statics.old statics.new
        (entered_constant generic (scalar_range_of range) (static_value_of value))) }
{
    let value = Static::Value(Owner::Here, value);
    let name = statics.enter_constant(alloc, generic, range, value)?;
    Ok(own(Some(name)))
}

/// What is known of a constant of the library level with this value.
fn library_known(
    alloc: Global,
    statics: &mut Statics,
    generic: Option<u32>,
    range: ScalarRange,
    value: StaticValue,
) -> Result<ConstantValue, AllocError>
    ensures { let e = static_value_of value in
        IfOk result (GivesKnown statics.old statics.new (rules.numbered generic (scalar_range_of range) e (Some e))) }
{
    match generic {
        Some(generic) => entered(alloc, statics, generic, range, value),
        None => Ok(own(Some(value))),
    }
}

/// What is known of an object of the library level with this initial value: of a constant its value. In
/// the text of a generic it is one of the generic's constants.
pub(crate) fn library_constant(
    alloc: Global,
    statics: &mut Statics,
    generic: Option<u32>,
    constancy: Constancy,
    subtype: Subtype,
    known: Option<StaticValue>,
) -> Result<Option<ConstantValue>, AllocError>
    ensures { IfOk result (IsLibraryConstant statics.old statics.new generic constancy subtype known) }
{
    match (constancy, known) {
        (Constancy::Constant, Some(value)) => {
            let known = library_known(alloc, statics, generic, subtype.range, value)?;
            Ok(Some(known))
        }
        _ => Ok(None),
    }
}

/// The value of a static expression in no generic, where it lies in a range.
fn lying(instances: &Instances, range: ScalarRange, value: &StaticTree) -> Option<i32>
    ensures { result ≡ statics.within (value_in instances.now 0 value.now)
        (bounds_in instances.now 0 (scalar_range_of range)) }
{
    let value = instances.tree(0, value)?;
    let range = instances.bounds(0, range)?;
    if range.first <= value && value <= range.last {
        Some(value)
    } else {
        None
    }
}

/// What is known of a constant of a subprogram with this value. In no generic there is none where the
/// value does not lie in the constant's subtype.
fn local_known(
    alloc: Global,
    statics: &mut Statics,
    instances: &Instances,
    generic: Option<u32>,
    range: ScalarRange,
    value: &StaticTree,
) -> Result<ConstantValue, AllocError>
    ensures { IfOk result (IsLocalKnown statics.old statics.new instances.now generic range value.now) }
{
    match generic {
        Some(generic) => {
            let value = statics.value_named(alloc, generic, value)?;
            entered(alloc, statics, generic, range, value)
        }
        None => {
            let known = lying(instances, range, value);
            Ok(own_number(known))
        }
    }
}

/// What is known of an object of a subprogram with this initial value: of a constant its value. In the
/// text of a generic it is one of the generic's constants.
pub(crate) fn local_constant(
    alloc: Global,
    statics: &mut Statics,
    instances: &Instances,
    generic: Option<u32>,
    constancy: Constancy,
    subtype: Subtype,
    known: Option<StaticTree>,
) -> Result<Option<ConstantValue>, AllocError>
    ensures { IfOk result (IsLocalConstant statics.old statics.new instances.now generic constancy subtype known) }
{
    match (constancy, known) {
        (Constancy::Constant, Some(value)) => {
            let known = local_known(alloc, statics, instances, generic, subtype.range, &value)?;
            Ok(Some(known))
        }
        _ => Ok(None),
    }
}
