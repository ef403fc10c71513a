//! How many slots names, expressions and actuals are worked out in: their widths (Ada RM 2012, 4.1, 4.4,
//! 6.4.1).

ghost use Rattle.std.specs.Prelude.{◌≡◌};
ghost use Rattle.ada_tree.specs.Objects.{capped};
ghost use Rattle.ada_tree.specs.View.{actuals_of, is_filled, parts_of};
ghost use Rattle.frame_widths.specs.Chains.{end_of_actual, end_of_operands, end_of_selector, end_of_tests, slots_of};
ghost use Rattle.frame_widths.specs.Ends.{end_of, end_of_actuals, end_of_parts, end_of_test};

use ada_tree::{Actual, Expr, ExprKind, Operand, Selector, Test, TestKind};

/// The width of an expression.
#[cycle(value)]
pub(crate) fn width_of_expr(expr: &Expr) -> u32
    ensures { result ≡ capped (end_of 0 expr.now) }
{
    match &expr.kind {
        ExprKind::Literal(_) | ExprKind::Constant(_) | ExprKind::Read(_) => 1,
        ExprKind::Part(_, selectors) | ExprKind::Attribute(_, selectors, _) => {
            width_of_parts(selectors)
        }
        ExprKind::Signed(_, operand)
        | ExprKind::Complement(operand)
        | ExprKind::Conversion(_, operand) => width_of_expr(operand),
        ExprKind::Operations(first, others) => width_of_expr(first).max(width_of_operands(others)),
        ExprKind::Relation(_, left, right) => {
            width_of_expr(left).max(width_of_expr(right).saturating_add(1))
        }
        ExprKind::Call(_, actuals) => width_of_actuals(actuals),
        ExprKind::Decision(_, test) => width_of_test(test),
    }
}

/// The width of the right operands of a chain, which are worked out one slot behind what stands left of
/// them (RM 4.5).
#[cycle(value)]
fn width_of_operands(operands: &[Operand]) -> u32
    ensures { result ≡ capped (end_of_operands 0 operands.now) }
{
    let mut count = 0u32;
    for operand in operands {
        count = count.max(width_of_expr(&operand.operand).saturating_add(1));
    }
    count
}

/// The width of a selector. The first slot holds the address.
#[cycle(value)]
fn width_of_selector(selector: &Selector) -> u32
    ensures { result ≡ capped (end_of_selector 0 selector.now) }
{
    match selector {
        Selector::Component(_) => 1,
        Selector::Element(_, index) => width_of_expr(index).saturating_add(1),
    }
}

/// The width of a name, by its selectors.
#[cycle(value)]
pub(crate) fn width_of_parts(selectors: &[Selector]) -> u32
    ensures { result ≡ capped (end_of_parts 0 (parts_of selectors.now)) }
{
    let mut count = 1u32;
    for selector in selectors {
        count = count.max(width_of_selector(selector));
    }
    count
}

/// Whether a name has selectors.
pub(crate) fn has_parts(selectors: &[Selector]) -> bool
    ensures { result ≡ is_filled selectors.now }
{
    !selectors.is_empty()
}

/// How many slots an actual keeps until the call: its value or address, and one more for a part of a
/// variable.
pub fn slots_of(actual: &Actual) -> u32
    ensures { result ≡ slots_of actual.now }
{
    match actual {
        Actual::Part(_, selectors, _) => 1 + u32::from(has_parts(selectors)),
        Actual::Expression(_) | Actual::Variable(..) | Actual::Composite(..) => 1,
    }
}

/// The width of an actual.
#[cycle(value)]
fn width_of_actual(actual: &Actual) -> u32
    ensures { result ≡ capped (end_of_actual 0 actual.now) }
{
    match actual {
        Actual::Expression(expr) => width_of_expr(expr),
        Actual::Variable(..) => 1,
        Actual::Part(_, selectors, _) | Actual::Composite(_, selectors) => {
            width_of_parts(selectors)
        }
    }
}

/// The width of actuals, each behind the slots that those before it keep.
#[cycle(value)]
pub(crate) fn width_of_actuals(actuals: &[Actual]) -> u32
    ensures { result ≡ capped (end_of_actuals 0 (actuals_of actuals.now)) }
{
    let mut count = 0u32;
    let mut kept = 0u32;
    for actual in actuals {
        count = count.max(kept.saturating_add(width_of_actual(actual)));
        kept = kept.saturating_add(slots_of(actual));
    }
    count.max(kept.saturating_add(1))
}

/// The width of a decision, whose conditions are all worked out in the same slots.
#[cycle(value)]
pub(crate) fn width_of_test(test: &Test) -> u32
    ensures { result ≡ capped (end_of_test 0 test.now) }
{
    match &test.kind {
        TestKind::Condition(_, expr) => width_of_expr(expr),
        TestKind::Negation(operand) => width_of_test(operand),
        TestKind::ShortCircuit(_, first, others) => {
            width_of_test(first).max(width_of_tests(others))
        }
    }
}

/// The width of operands of a short-circuit control form (RM 4.5.1).
#[cycle(value)]
fn width_of_tests(tests: &[Test]) -> u32
    ensures { result ≡ capped (end_of_tests 0 tests.now) }
{
    let mut count = 0u32;
    for test in tests {
        count = count.max(width_of_test(test));
    }
    count
}
