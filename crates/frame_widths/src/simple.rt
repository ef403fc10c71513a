//! The widths of assignments, calls, declarations and loop bounds (Ada RM 2012, 3.3.1, 5.2, 5.5, 6.4).

ghost use Rattle.std.specs.Prelude.{◌≡◌, ◌+◌, length, map};
ghost use Rattle.ada_tree.specs.Objects.{capped};
ghost use Rattle.ada_tree.specs.View.{actuals_of, declaration_of, parts_of, turns_of, value_of};
ghost use Rattle.frame_widths.specs.Ends.{end_of_assignment, end_of_call, end_of_declaration, end_of_declarations, end_of_range, end_of_value};

use crate::value::{has_parts, width_of_actuals, width_of_expr, width_of_parts};
use ada_tree::{Actual, Declaration, Indices, LoopRange, NewValue, Selector};

/// The slots that `(others => ..)` keeps: one for each index (RM 4.3.3).
fn width_of_indices(indices: &Indices) -> u32
    ensures { result ≡ capped (length indices.now.inner + 1) }
{
    u32::try_from(indices.inner.len())
        .unwrap_or(u32::MAX)
        .saturating_add(1)
}

/// The width of what an object or a component is set to, behind the slot of its address.
fn width_of_value(value: &NewValue) -> u32
    ensures { result ≡ capped (end_of_value 0 (value_of value.now)) }
{
    match value {
        NewValue::Scalar(_, expr) => width_of_expr(expr),
        NewValue::Composite(_, _, _, selectors) => width_of_parts(selectors),
        NewValue::OthersScalar(indices, _, expr) => {
            width_of_indices(indices).saturating_add(width_of_expr(expr))
        }
        NewValue::OthersComposite(indices, _, _, _, selectors) => {
            width_of_indices(indices).saturating_add(width_of_parts(selectors))
        }
    }
}

/// The width of an assignment to an object, or to a part of one. A whole object of one word is set without
/// its address.
pub(crate) fn width_of_assignment(selectors: &[Selector], value: &NewValue) -> u32
    ensures { result ≡ capped (end_of_assignment 0 (parts_of selectors.now) (value_of value.now)) }
{
    if has_parts(selectors) {
        return width_of_parts(selectors).max(width_of_value(value).saturating_add(1));
    }
    let NewValue::Scalar(_, expr) = value else {
        return width_of_value(value).saturating_add(1);
    };
    width_of_expr(expr)
}

/// The width of a call of a procedure. What Get reads stands behind the address of a part.
pub(crate) fn width_of_call(actuals: &[Actual]) -> u32
    ensures { result ≡ capped (end_of_call 0 (actuals_of actuals.now)) }
{
    let taken = width_of_actuals(actuals);
    let Some((first, _)) = actuals.split_first() else {
        return taken;
    };
    match first {
        Actual::Variable(..) => taken.max(2),
        Actual::Part(_, selectors, _) => taken.max(2).max(width_of_parts(selectors)),
        Actual::Expression(_) | Actual::Composite(..) => taken,
    }
}

/// The width of a declaration.
fn width_of_declaration(declaration: &Declaration) -> u32
    ensures { result ≡ capped (end_of_declaration 0 (declaration_of declaration.now)) }
{
    match declaration {
        Declaration::Initialized(_, _, value) => width_of_assignment(&[], value),
        Declaration::WithoutValue(..) => 1,
    }
}

/// The width of declarations.
pub(crate) fn width_of_declarations(declarations: &[Declaration]) -> u32
    ensures { result ≡ capped (end_of_declarations 0 (map declaration_of declarations.now)) }
{
    let mut count = 1u32;
    for declaration in declarations {
        count = count.max(width_of_declaration(declaration));
    }
    count
}

/// The width of the bounds of a loop, which stay in two slots.
pub(crate) fn width_of_range(values: &LoopRange) -> u32
    ensures { result ≡ capped (end_of_range 0 (turns_of values.now)) }
{
    match values {
        LoopRange::Subtype(_) => 3,
        LoopRange::Bounds(first, last) => width_of_expr(first)
            .max(width_of_expr(last).saturating_add(1))
            .max(3),
    }
}
