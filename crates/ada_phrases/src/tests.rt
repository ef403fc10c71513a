//! Decisions of statements (Ada RM 2012, 5.3).

ghost use Rattle.std.specs.Prelude.{◌≡◌, IfOk};
ghost use Rattle.ada_tree.specs.View.{label_of};
ghost use Rattle.ada_rules.specs.Denoted.{test_of};
ghost use Rattle.ada_rules.specs.Expressions as rules;
ghost use Rattle.ada_entities.specs.EntityViews.{Tables};
ghost use Rattle.ada_judged.specs.JudgedView.{judged_of};
ghost use Rattle.ada_phrases.specs.declared.scope.Step.TheVariants as step;
ghost use Rattle.ada_phrases.specs.Answers.{ComesTo};
ghost use Rattle.ada_phrases.specs.DecisionView.{decision_of, IsAnyDecision, IsDecision};

use crate::circuits::Role;
use crate::decisions::Decisions;
use crate::handing::paired;
use crate::phrases::judged;
use crate::scope::{Scope, Step};
use ada_entities::{Refusal, refused};
use ada_judged::Judged;
use ada_syntax::Expr;
use ada_tree::{Decision, Label};
use cov_base::{Failure, Pos};
use std::alloc::{AllocError, Global};

/// The decision of a statement in the step of names, with its label.
fn any_decision(alloc: Global, label: Label, value: Judged) -> Result<Decision, AllocError>
    ensures { IfOk result (IsAnyDecision label value) }
{
    let test = value.form.into_test(alloc, value.at)?;
    Ok(Decision { label, test })
}

/// The same in the step of types, where the expression has to be Boolean. That is asked of the statement, which
/// begins at `pos`; the decision begins at the place of its label.
#[tactic(auto, using(crate::proofs::Parts::parts))]
fn boolean_decision(
    alloc: Global,
    decisions: &mut Decisions,
    pos: Pos,
    label: Label,
    value: Judged,
) -> Result<Decision, Failure<Refusal>>
    ensures { IsDecision decisions.old decisions.new step.Typing pos label value result }
{
    let Some(test) = value.tested(alloc)? else {
        return Err(refused(pos));
    };
    let measured = decisions.measure(label.place, &test);
    let (test, ()) = paired(test, measured)?;
    Ok(Decision { label, test })
}

/// The decision of a statement that begins at this place, with its label.
#[tactic(auto, using(crate::proofs::Parts::parts))]
fn labelled(
    alloc: Global,
    step: Step,
    decisions: &mut Decisions,
    pos: Pos,
    label: Label,
    value: Judged,
) -> Result<Decision, Failure<Refusal>>
    ensures { IsDecision decisions.old decisions.new step pos label value result }
{
    match step {
        Step::Naming => Ok(any_decision(alloc, label, value)?),
        Step::Typing => boolean_decision(alloc, decisions, pos, label, value),
    }
}

/// The expression of the decision of a statement that begins at `pos`: it is one however few conditions it has
/// (RM 5.3).
#[tactic(auto, using(crate::proofs::Parts::parts))]
pub fn decision(
    alloc: Global,
    scope: &Scope<'_>,
    decisions: &mut Decisions,
    pos: Pos,
    expr: &Expr,
) -> Result<Decision, Failure<Refusal>>
    ensures { ComesTo decision_of scope.now decisions.old decisions.new
        (λ k env s. (rules.decision env s pos expr.now).answer) result }
{
    let label = decisions.number(expr.pos())?;
    let value = judged(alloc, scope, Role::Operand, decisions, expr)?;
    labelled(alloc, scope.step, decisions, pos, label, value)
}
