//! Decisions: their numbers, and their counts of conditions (Ada RM 2012, 4.5.1).

ghost use Rattle.std.specs.Prelude.{◌≡◌, [], not, nat_le, sum_by, option_map, IfOk, OnOk};
ghost use Rattle.ada_meaning.specs.Tree as tree;
ghost use Rattle.ada_tree.specs.Objects.{capped};
ghost use Rattle.ada_tree.specs.View.{label_of};
ghost use Rattle.ada_rules.specs.Denoted.{test_of};
ghost use Rattle.ada_judged.specs.JudgedView.{form_of};
ghost use Rattle.ada_rules.specs.Environment.{State, decision_label, decided};
ghost use Rattle.ada_rules.specs.Expressions.{entered, measured, most_conditions};
ghost use Rattle.ada_phrases.specs.Scopes.{step_of};
ghost use Rattle.ada_phrases.specs.Closing.{label_if, closing, closing_in, IsDecisionOf, IsClosed};
ghost use Rattle.ada_phrases.specs.Answers.{counted};

use crate::handing::paired;
use crate::scope::Step;
use ada_judged::{Form, Judged};
use ada_tree::{Expr, Label, Test, TestKind};
use cov_base::Pos;
use std::alloc::{AllocError, Global};

/// How many decisions were met, and where one has more conditions than the limit.
pub struct Decisions {
    pub count: u32,
    pub excesses: Vec<Pos>,
}

// Written out: a derived drop is proved anew in each crate above.
impl Drop for Decisions {
    fn drop(self) {
        let Decisions {
            count: _,
            excesses: _,
        } = self;
    }
}

/// The most conditions of a decision.
const MOST_CONDITIONS: u32 = 32;

/// How many conditions a test has. The count stands still at 2^32 - 1.
#[cycle(conditions)]
fn conditions(test: &Test) -> u32
    ensures { result ≡ capped (tree.conditions_of test.now) }
{
    match &test.kind {
        TestKind::Condition(_, _) => 1,
        TestKind::Negation(inner) => conditions(inner),
        TestKind::ShortCircuit(_, first, others) => {
            conditions(first).saturating_add(conditions_in(others))
        }
    }
}

/// How many conditions several tests have together.
#[cycle(conditions)]
fn conditions_in(tests: &[Test]) -> u32
    ensures { result ≡ capped (sum_by tree.conditions_of tests.now) }
{
    let mut count = 0u32;
    for test in tests {
        count = count.saturating_add(conditions(test));
    }
    count
}

/// Whether a test has more conditions than the limit.
fn is_beyond(test: &Test) -> bool
    ensures { result ≡ not (nat_le (tree.conditions_of test.now) most_conditions) }
{
    conditions(test) > MOST_CONDITIONS
}

impl Decisions {
    /// No decisions.
    pub fn new(alloc: Global) -> Decisions
        ensures count { result.count ≡ 0 }
        ensures excesses { result.excesses.items ≡ [] }
    {
        Decisions {
            count: 0,
            excesses: Vec::new(alloc),
        }
    }

    /// Takes the number of a decision that begins at this place. One beyond 2^32 - 1 has no memory.
    pub fn number(&mut self, pos: Pos) -> Result<Label, AllocError>
        ensures label { IfOk result (λ l. (s : State) → label_of l ≡ decision_label (counted self.old s) pos) }
        ensures taken { OnOk result ((s : State) → counted self.new s ≡ decided (counted self.old s)) }
    {
        let number = self.count;
        let Some(next) = number.checked_add(1) else {
            return Err(AllocError);
        };
        self.count = next;
        Ok(Label { number, place: pos })
    }

    /// Takes the number of an expression that begins at this place, where it is a decision of its own.
    pub fn enter(&mut self, opens: bool, pos: Pos) -> Result<Option<Label>, AllocError>
        ensures label { IfOk result (λ l. (s : State) → option_map label_of l
            ≡ label_if opens (counted self.old s) pos) }
        ensures entered { OnOk result ((s : State) → counted self.new s ≡ entered opens (counted self.old s)) }
    {
        if !opens {
            return Ok(None);
        }
        Ok(Some(self.number(pos)?))
    }

    /// Keeps the place of a decision with too many conditions.
    pub fn measure(&mut self, pos: Pos, test: &Test) -> Result<(), AllocError>
        ensures { OnOk result ((s : State) → counted self.new s ≡ measured pos test.now (counted self.old s)) }
    {
        if !is_beyond(test) {
            return Ok(());
        }
        self.excesses.push(pos)?;
        Ok(())
    }
}

/// A decision that begins at `pos`, with its label: its test is that of this form, which begins at `at`.
fn decision_of(
    alloc: Global,
    decisions: &mut Decisions,
    label: Label,
    pos: Pos,
    at: Pos,
    form: Form,
) -> Result<Expr, AllocError>
    ensures { IfOk result (IsDecisionOf decisions.old decisions.new label pos (test_of at (form_of form))) }
{
    let test = form.into_test(alloc, at)?;
    let measured = decisions.measure(pos, &test);
    let (test, ()) = paired(test, measured)?;
    Expr::decision(alloc, label, test)
}

/// An expression that begins at this place, with the label of the decision that it is, if it is one. No
/// decision is an object.
pub fn closed(
    alloc: Global,
    decisions: &mut Decisions,
    label: Option<Label>,
    pos: Pos,
    value: Judged,
) -> Result<Judged, AllocError>
    ensures { IfOk result (λ x. IsClosed decisions.old decisions.new value x
        (closing (option_map label_of label) pos) (option_map label_of label)) }
{
    let Some(label) = label else {
        return Ok(value);
    };
    let expr = decision_of(alloc, decisions, label, pos, value.at, value.form);
    let (known, expr) = paired(value.known, expr)?;
    Ok(Judged {
        form: Form::Plain(expr),
        at: value.at,
        kind: value.kind,
        known,
        values: value.values,
        spelling: value.spelling,
    })
}

/// The same where a rule on types was asked before: in the step of names the expression stays.
pub fn closed_in(
    alloc: Global,
    step: Step,
    decisions: &mut Decisions,
    label: Option<Label>,
    pos: Pos,
    value: Judged,
) -> Result<Judged, AllocError>
    ensures { IfOk result (λ x. IsClosed decisions.old decisions.new value x
        (closing_in (step_of step) (option_map label_of label) pos) (option_map label_of label)) }
{
    match step {
        Step::Naming => Ok(value),
        Step::Typing => closed(alloc, decisions, label, pos, value),
    }
}
