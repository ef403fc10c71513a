//! Tests and short-circuit control forms (Ada RM 2012, 4.5.1, 5.3).

ghost use Rattle.std.specs.Prelude.{◌≡◌, option_map, IfOk, IsTrue};
ghost use Rattle.ada_meaning.specs.Tree as tree;
ghost use Rattle.ada_tree.specs.View.{neutral_of, with_tests, is_filled};
ghost use Rattle.ada_entities.specs.ada_rules.specs.Denoted as rules;
ghost use Rattle.ada_entities.specs.EntityViews.{Tables};
ghost use Rattle.ada_judged.specs.JudgedView.{form_of, judged_of};

use crate::handing::both;
use crate::judged::{Form, Judged, Spelling};
use crate::kind::Kind;
use crate::operators::negated;
use ada_entities::AdaType;
use ada_syntax::LogicalOperator;
use ada_tree::{Expr, ExprKind, ShortCircuit, Test, TestKind};
use cov_base::Pos;
use std::alloc::{AllocError, Global};

/// An expression as a test, whose condition begins at this place: `not` is taken off.
fn test_of_expr(alloc: Global, at: Pos, expr: Expr) -> Result<Test, AllocError>
    ensures { IfOk result (λ t. t ≡ rules.test_of_expr at expr) }
{
    match expr.into_kind() {
        ExprKind::Complement(inner) => {
            let test = test_of_expr(alloc, at, Box::into_inner(inner))?;
            negated(alloc, test)
        }
        kind => Ok(Test::condition(at, Expr { kind })),
    }
}

impl Form {
    /// The form as a test, whose condition begins at this place.
    pub fn into_test(self, alloc: Global, at: Pos) -> Result<Test, AllocError>
        ensures { IfOk result (λ t. t ≡ rules.test_of at (form_of self)) }
    {
        match self {
            Form::Plain(expr) => test_of_expr(alloc, at, expr),
            Form::Test(test) => Ok(test),
            Form::Object(variable) => {
                let expr = Expr::part(variable.object, variable.parts);
                Ok(Test::condition(at, expr))
            }
        }
    }
}

/// The short-circuit control form of an operator that is one.
fn circuit_form(operator: LogicalOperator) -> Option<ShortCircuit>
    ensures { option_map neutral_of result ≡ rules.neutral_of operator }
{
    match operator {
        LogicalOperator::AndThen => Some(ShortCircuit::AndThen),
        LogicalOperator::OrElse => Some(ShortCircuit::OrElse),
        LogicalOperator::And | LogicalOperator::Or | LogicalOperator::Xor => None,
    }
}

/// The operands of a form where it is this one, and else the form as one operand.
fn chained(
    alloc: Global,
    form: ShortCircuit,
    own: ShortCircuit,
    first: Box<Test>,
    others: Vec<Test>,
) -> (Test, Vec<Test>)
    requires { IsTrue (is_filled others.items) }
    ensures { with_tests (neutral_of form) result.0 result.1.items ≡ with_tests (neutral_of own) first.value others.items }
{
    match (form, own) {
        (ShortCircuit::AndThen, ShortCircuit::AndThen)
        | (ShortCircuit::OrElse, ShortCircuit::OrElse) => (Box::into_inner(first), others),
        (ShortCircuit::AndThen, ShortCircuit::OrElse)
        | (ShortCircuit::OrElse, ShortCircuit::AndThen) => {
            let kind = TestKind::ShortCircuit(own, first, others);
            (Test { kind }, Vec::new(alloc))
        }
    }
}

/// The first operand of a chain of this form, and those behind it: what is no such chain is an operand
/// alone.
fn opened(alloc: Global, form: ShortCircuit, test: Test) -> (Test, Vec<Test>)
    ensures { with_tests (neutral_of form) result.0 result.1.items ≡ test }
{
    match test.into_kind() {
        TestKind::ShortCircuit(own, first, others) => chained(alloc, form, own, first, others),
        kind => (Test { kind }, Vec::new(alloc)),
    }
}

/// A short-circuit control form and its two operands: a chain grows in place.
fn short_circuit(
    alloc: Global,
    form: ShortCircuit,
    left: Test,
    right: Test,
) -> Result<Test, AllocError>
    ensures { IfOk result (λ t. t ≡ tree.operator (neutral_of form) left right) }
{
    let (first, mut others) = opened(alloc, form, left);
    others.push(right)?;
    Test::short_circuit(alloc, form, first, others)
}

impl Judged {
    /// The expression as a test.
    fn into_test(self, alloc: Global) -> Result<Test, AllocError>
        ensures { IfOk result (λ t. t ≡ rules.test_of self.at (form_of self.form)) }
    {
        self.form.into_test(alloc, self.at)
    }

    /// A short-circuit control form and its two operands, which stand at this place.
    fn circuit(
        self,
        alloc: Global,
        pos: Pos,
        form: ShortCircuit,
        right: Judged,
    ) -> Result<Judged, AllocError>
        ensures { IfOk result (λ x. (k : Tables) → judged_of k x
            ≡ rules.circuit_of pos (judged_of k self) (judged_of k right) (neutral_of form)) }
    {
        let (left, right) = both(self.into_test(alloc), right.into_test(alloc))?;
        let test = short_circuit(alloc, form, left, right)?;
        Ok(Judged {
            form: Form::Test(test),
            at: pos,
            kind: Kind::Of(AdaType::boolean()),
            known: None,
            values: None,
            spelling: Spelling::Other,
        })
    }

    /// A logical operator and its two operands, which stand at this place. None where they are not
    /// Boolean, and for `and`, `or` and `xor`, which are no part of this language.
    pub fn joined(
        self,
        alloc: Global,
        pos: Pos,
        operator: LogicalOperator,
        right: Judged,
    ) -> Result<Option<Judged>, AllocError>
        ensures { IfOk result (λ o. (k : Tables) → option_map (judged_of k) o
            ≡ rules.joined pos operator (judged_of k self) (judged_of k right)) }
    {
        let are_boolean = self.kind.is_boolean() && right.kind.is_boolean();
        match (are_boolean, circuit_form(operator)) {
            (true, Some(form)) => Ok(Some(self.circuit(alloc, pos, form, right)?)),
            _ => {
                drop((self, right));
                Ok(None)
            }
        }
    }

    /// The test of a statement (RM 5.3). None where the expression is not Boolean.
    pub fn tested(self, alloc: Global) -> Result<Option<Test>, AllocError>
        ensures { IfOk result (λ o. (k : Tables) → o ≡ rules.tested (judged_of k self)) }
    {
        if !self.kind.is_boolean() {
            drop(self);
            return Ok(None);
        }
        Ok(Some(self.into_test(alloc)?))
    }
}
