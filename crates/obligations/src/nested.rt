//! Decisions and what is nested in them: in expressions, and so in what an object is set to, in actual
//! parameters and in the conditions of other decisions.

ghost use Rattle.std.specs.Prelude.{◌≡◌, OnOk};
ghost use Rattle.ada_meaning.specs.Collected.{Standing, in_expr, in_parts, in_actuals, in_value, in_turns};
ghost use Rattle.ada_meaning.specs.Obligations.{letter_of};
ghost use Rattle.ada_tree.specs.View.{parts_of, actuals_of, label_of, neutral_of, turns_of, value_of};
ghost use Rattle.obligations.specs.Entries.{joined, of_decision, of_nested};
ghost use Rattle.obligations.specs.Operands.{in_actual, in_operands, in_selector};
ghost use Rattle.obligations.specs.Spelled.{with_others, with_test};

use crate::decisions::{NOT, Spelling, form_byte};
use crate::listing::Listing;
use ada_tree::{
    Actual, Decision, Expr, ExprKind, Label, LoopRange, NewValue, Operand, Selector, ShortCircuit,
    Test, TestKind,
};
use cov_base::Letter;
use std::alloc::AllocError;

/// Adds the entry of a decision with this letter, which the statement with this number holds, and then
/// the entries of those nested in its conditions.
pub(crate) fn add_decision(
    listing: &mut Listing,
    letter: Letter,
    statement: u32,
    decision: &Decision,
) -> Result<(), AllocError>
    ensures { (standing : Standing) → letter.0 ≡ letter_of standing
        → OnOk result (listing.new ≡ joined listing.old (of_decision standing statement (label_of decision.now.label) decision.now.test)) }
{
    add_labelled(listing, letter, statement, decision.label, &decision.test)
}

/// The same of a decision by its label and its test: its expression is spelled and what is nested in it
/// is found on one walk.
#[cycle(nested)]
fn add_labelled(
    listing: &mut Listing,
    letter: Letter,
    statement: u32,
    label: Label,
    test: &Test,
) -> Result<(), AllocError>
    ensures { (standing : Standing) → letter.0 ≡ letter_of standing
        → OnOk result (listing.new ≡ joined listing.old (of_decision standing statement (label_of label) test.now)) }
{
    let mut spelling = listing.spelling();
    add_test(&mut spelling, statement, test)?;
    listing.add_decision(letter, statement, label, spelling)
}

/// Adds a test to the expression of its decision, and the entries of the decisions in its conditions.
#[cycle(nested)]
fn add_test(spelling: &mut Spelling, statement: u32, test: &Test) -> Result<(), AllocError>
    ensures { OnOk result (spelling.new ≡ with_test statement test.now spelling.old) }
{
    match &test.kind {
        TestKind::Condition(place, expr) => {
            spelling.add_condition(*place)?;
            add_in_expression(&mut spelling.nested, statement, expr)
        }
        TestKind::Negation(operand) => {
            add_test(spelling, statement, operand)?;
            spelling.add_operator(NOT)
        }
        TestKind::ShortCircuit(form, first, others) => {
            add_test(spelling, statement, first)?;
            add_tests(spelling, *form, statement, others)
        }
    }
}

/// The same of the operands of a short-circuit control form right of the first one.
#[cycle(nested)]
fn add_tests(
    spelling: &mut Spelling,
    form: ShortCircuit,
    statement: u32,
    tests: &[Test],
) -> Result<(), AllocError>
    ensures { OnOk result (spelling.new ≡ with_others statement (neutral_of form) tests.now spelling.old) }
{
    for test in tests {
        add_test(spelling, statement, test)?;
        spelling.add_operator(form_byte(form))?;
    }
    Ok(())
}

/// Adds those in an expression: an outer one before those nested in it.
#[cycle(nested)]
pub(crate) fn add_in_expression(
    listing: &mut Listing,
    statement: u32,
    expr: &Expr,
) -> Result<(), AllocError>
    ensures { OnOk result (listing.new ≡ joined listing.old (of_nested (in_expr statement expr.now))) }
{
    match &expr.kind {
        ExprKind::Literal(_) | ExprKind::Constant(_) | ExprKind::Read(_) => Ok(()),
        ExprKind::Part(_, parts) | ExprKind::Attribute(_, parts, _) => {
            add_in_parts(listing, statement, parts)
        }
        ExprKind::Signed(_, operand)
        | ExprKind::Complement(operand)
        | ExprKind::Conversion(_, operand) => add_in_expression(listing, statement, operand),
        ExprKind::Call(_, actuals) => add_in_actuals(listing, statement, actuals),
        ExprKind::Relation(_, left, right) => {
            add_in_expression(listing, statement, left)?;
            add_in_expression(listing, statement, right)
        }
        ExprKind::Operations(first, others) => {
            add_in_expression(listing, statement, first)?;
            add_in_operands(listing, statement, others)
        }
        ExprKind::Decision(label, test) => {
            add_labelled(listing, Letter::EXPRESSION, statement, *label, test)
        }
    }
}

/// Adds those in the operands of a chain.
#[cycle(nested)]
fn add_in_operands(
    listing: &mut Listing,
    statement: u32,
    operands: &[Operand],
) -> Result<(), AllocError>
    ensures { OnOk result (listing.new ≡ joined listing.old (of_nested (in_operands statement operands.now))) }
{
    for operand in operands {
        add_in_expression(listing, statement, &operand.operand)?;
    }
    Ok(())
}

/// Adds those in the indices of a name.
#[cycle(nested)]
pub(crate) fn add_in_parts(
    listing: &mut Listing,
    statement: u32,
    parts: &[Selector],
) -> Result<(), AllocError>
    ensures { OnOk result (listing.new ≡ joined listing.old (of_nested (in_parts statement (parts_of parts.now)))) }
{
    for part in parts {
        add_in_selector(listing, statement, part)?;
    }
    Ok(())
}

/// Adds those in a selector: in an index.
#[cycle(nested)]
fn add_in_selector(
    listing: &mut Listing,
    statement: u32,
    selector: &Selector,
) -> Result<(), AllocError>
    ensures { OnOk result (listing.new ≡ joined listing.old (of_nested (in_selector statement selector.now))) }
{
    match selector {
        Selector::Component(_) => Ok(()),
        Selector::Element(_, index) => add_in_expression(listing, statement, index),
    }
}

/// Adds those in actual parameters.
#[cycle(nested)]
pub(crate) fn add_in_actuals(
    listing: &mut Listing,
    statement: u32,
    actuals: &[Actual],
) -> Result<(), AllocError>
    ensures { OnOk result (listing.new ≡ joined listing.old (of_nested (in_actuals statement (actuals_of actuals.now)))) }
{
    for actual in actuals {
        add_in_actual(listing, statement, actual)?;
    }
    Ok(())
}

/// Adds those in an actual parameter.
#[cycle(nested)]
fn add_in_actual(listing: &mut Listing, statement: u32, actual: &Actual) -> Result<(), AllocError>
    ensures { OnOk result (listing.new ≡ joined listing.old (of_nested (in_actual statement actual.now))) }
{
    match actual {
        Actual::Expression(expr) => add_in_expression(listing, statement, expr),
        Actual::Variable(_, _) => Ok(()),
        Actual::Part(_, parts, _) | Actual::Composite(_, parts) => {
            add_in_parts(listing, statement, parts)
        }
    }
}

/// Adds those in what an object is set to.
pub(crate) fn add_in_value(
    listing: &mut Listing,
    statement: u32,
    value: &NewValue,
) -> Result<(), AllocError>
    ensures { OnOk result (listing.new ≡ joined listing.old (of_nested (in_value statement (value_of value.now)))) }
{
    match value {
        NewValue::Scalar(_, expr) => add_in_expression(listing, statement, expr),
        NewValue::OthersScalar(_, _, expr) => add_in_expression(listing, statement, expr),
        NewValue::Composite(_, _, _, parts) => add_in_parts(listing, statement, parts),
        NewValue::OthersComposite(_, _, _, _, parts) => add_in_parts(listing, statement, parts),
    }
}

/// Adds those in the bounds of a for loop.
pub(crate) fn add_in_turns(
    listing: &mut Listing,
    statement: u32,
    turns: &LoopRange,
) -> Result<(), AllocError>
    ensures { OnOk result (listing.new ≡ joined listing.old (of_nested (in_turns statement (turns_of turns.now)))) }
{
    match turns {
        LoopRange::Subtype(_) => Ok(()),
        LoopRange::Bounds(first, last) => {
            add_in_expression(listing, statement, first)?;
            add_in_expression(listing, statement, last)
        }
    }
}
