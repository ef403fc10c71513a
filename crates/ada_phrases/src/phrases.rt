//! Names and expressions (Ada RM 2012, 4.1, 4.4, 4.5).

ghost use Rattle.std.specs.Prelude.{◌≡◌, true};
ghost use Rattle.cov_base.specs.declared.position.Pos.{Pos};
ghost use Rattle.ada_syntax.specs.Tree as source;
ghost use Rattle.ada_syntax.specs.TreeView.{exprs_of, is_filled, joined, with_operands};
ghost use Rattle.ada_rules.specs.Environment.{given};
ghost use Rattle.ada_rules.specs.Expressions as rules;
ghost use Rattle.ada_rules.specs.Plan.{answer_at};
ghost use Rattle.ada_judged.specs.JudgedView.{judged_of};
ghost use Rattle.ada_phrases.specs.Answers.{ComesTo, along};
ghost use Rattle.ada_phrases.specs.Closing.{role_of};
ghost use Rattle.ada_phrases.specs.DenotedView.{denotes};
ghost use Rattle.ada_phrases.specs.Steps.{operand_in, joined_in, applied_in, suffix_in, all_judged_of};

use crate::circuits::{Role, is_circuit, is_circuit_under, is_form};
use crate::decisions::{Decisions, closed, closed_in};
use crate::handing::paired;
use crate::names::{Denoted, any_judged};
use crate::scope::Scope;
use crate::suffixes::{attributed, named, selected, typed, typed_found};
use ada_entities::Refusal;
use ada_judged::Judged;
use ada_syntax::{
    Expr, ExprKind, LogicalOperator, Name, Operand, RelationalOperator, Suffix, UnaryOperator,
};
use cov_base::{Failure, Pos};
use std::alloc::Global;

/// An expression (RM 4.4), by itself or as an operand of the decision round it.
#[cycle(phrases)]
#[tactic(auto, using(crate::proofs::Parts::parts))]
pub fn judged(
    alloc: Global,
    scope: &Scope<'_>,
    role: Role,
    decisions: &mut Decisions,
    expr: &Expr,
) -> Result<Judged, Failure<Refusal>>
    ensures { ComesTo judged_of scope.now decisions.old decisions.new
        (λ k env s. (rules.judged env (role_of role) s expr.now).answer) result }
{
    let pos = expr.pos;
    match &expr.kind {
        ExprKind::Numeral(value) => {
            typed(scope.step, pos, any_judged(), Judged::numeral(pos, *value))
        }
        ExprKind::Name(name) => value_of_name(alloc, scope, decisions, pos, name),
        ExprKind::Parenthesized(inner) => {
            parenthesized(alloc, scope, role, decisions, pos, inner)
        }
        ExprKind::Unary(operator, operand) => {
            unary(alloc, scope, role, decisions, pos, *operator, operand)
        }
        ExprKind::Product(first, others) | ExprKind::Sum(first, others) => {
            operations(alloc, scope, decisions, pos, first, others)
        }
        ExprKind::Relation(left, operator, right) => {
            relation(alloc, scope, decisions, pos, left, *operator, right)
        }
        ExprKind::Logical(operator, first, others) => {
            logical(alloc, scope, role, decisions, pos, *operator, first, others)
        }
    }
}

/// A name that stands as an expression, at this place.
#[cycle(phrases)]
#[tactic(auto, using(crate::proofs::Parts::parts))]
fn value_of_name(
    alloc: Global,
    scope: &Scope<'_>,
    decisions: &mut Decisions,
    pos: Pos,
    name: &Name,
) -> Result<Judged, Failure<Refusal>>
    ensures { ComesTo judged_of scope.now decisions.old decisions.new
        (λ k env s. (rules.judged env rules.itself s (source.named pos name.now)).answer) result }
{
    let denoted = denoted(alloc, scope, decisions, name)?;
    typed(
        scope.step,
        pos,
        any_judged(),
        denoted.value(alloc, scope, pos),
    )
}

/// An expression in parentheses, of which the first stands at this place.
#[cycle(phrases)]
#[tactic(auto, using(crate::proofs::Parts::parts))]
fn parenthesized(
    alloc: Global,
    scope: &Scope<'_>,
    role: Role,
    decisions: &mut Decisions,
    pos: Pos,
    inner: &Expr,
) -> Result<Judged, Failure<Refusal>>
    ensures { ComesTo judged_of scope.now decisions.old decisions.new
        (λ k env s. (rules.judged env (role_of role) s (source.parenthesized pos inner.now)).answer) result }
{
    let label = decisions.enter(role.opens(is_circuit(inner)), pos)?;
    let value = judged(alloc, scope, Role::Operand, decisions, inner)?;
    Ok(closed(alloc, decisions, label, pos, value.enclosed())?)
}

/// An operator, which stands at this place, and its one operand (RM 4.5.4, 4.5.6).
#[cycle(phrases)]
#[tactic(auto, using(crate::proofs::Parts::parts))]
fn unary(
    alloc: Global,
    scope: &Scope<'_>,
    role: Role,
    decisions: &mut Decisions,
    pos: Pos,
    operator: UnaryOperator,
    operand: &Expr,
) -> Result<Judged, Failure<Refusal>>
    ensures { ComesTo judged_of scope.now decisions.old decisions.new
        (λ k env s. (rules.judged env (role_of role) s (source.unary pos operator operand.now)).answer) result }
{
    let label = decisions.enter(role.opens(is_circuit_under(operator, operand)), pos)?;
    let value = judged(alloc, scope, Role::under(operator), decisions, operand)?;
    let found = value.unary(alloc, pos, operator);
    let value = typed_found(scope.step, pos, any_judged(), found)?;
    Ok(closed_in(alloc, scope.step, decisions, label, pos, value)?)
}

/// Operands with operators between them, which group to the left. The first token stands at this place.
#[cycle(phrases)]
#[tactic(auto, using(crate::proofs::Parts::parts))]
fn operations(
    alloc: Global,
    scope: &Scope<'_>,
    decisions: &mut Decisions,
    pos: Pos,
    first: &Expr,
    others: &[Operand],
) -> Result<Judged, Failure<Refusal>>
    ensures { ComesTo judged_of scope.now decisions.old decisions.new
        (λ k env s. (rules.judged env rules.itself s (with_operands pos first.now others.now)).answer) result }
{
    let mut value = judged(alloc, scope, Role::Itself, decisions, first)?;
    for other in others {
        value = operated(alloc, scope, decisions, pos, value, other)?;
    }
    Ok(value)
}

/// An operand, and an operator with what stands right of it.
#[cycle(phrases)]
#[tactic(auto, using(crate::proofs::Parts::parts))]
fn operated(
    alloc: Global,
    scope: &Scope<'_>,
    decisions: &mut Decisions,
    pos: Pos,
    left: Judged,
    right: &Operand,
) -> Result<Judged, Failure<Refusal>>
    ensures { ComesTo judged_of scope.now decisions.old decisions.new
        (λ k env s. answer_at pos (operand_in env pos (given (judged_of k left) s) right.now).outcome) result }
{
    let value = judged(alloc, scope, Role::Itself, decisions, &right.operand);
    let (left, value) = paired(left, value)?;
    let found = left.binary(alloc, pos, right.operator, value);
    typed_found(scope.step, pos, any_judged(), found)
}

/// A relation, of which the first token stands at this place (RM 4.5.2).
#[cycle(phrases)]
#[tactic(auto, using(crate::proofs::Parts::parts))]
fn relation(
    alloc: Global,
    scope: &Scope<'_>,
    decisions: &mut Decisions,
    pos: Pos,
    left: &Expr,
    operator: RelationalOperator,
    right: &Expr,
) -> Result<Judged, Failure<Refusal>>
    ensures { ComesTo judged_of scope.now decisions.old decisions.new
        (λ k env s. (rules.judged env rules.itself s (source.relation pos left.now operator right.now)).answer) result }
{
    let left = judged(alloc, scope, Role::Itself, decisions, left)?;
    let right = judged(alloc, scope, Role::Itself, decisions, right);
    let (left, right) = paired(left, right)?;
    let found = left.related(alloc, pos, operator, right);
    typed_found(scope.step, pos, any_judged(), found)
}

/// Operands with a logical operator or a short-circuit control form between them, which groups to the
/// left (RM 4.5.1). The first token stands at this place.
#[cycle(phrases)]
#[tactic(auto, using(crate::proofs::Parts::parts))]
fn logical(
    alloc: Global,
    scope: &Scope<'_>,
    role: Role,
    decisions: &mut Decisions,
    pos: Pos,
    operator: LogicalOperator,
    first: &Expr,
    others: &[Expr],
) -> Result<Judged, Failure<Refusal>>
    ensures { is_filled others.now ≡ true → ComesTo judged_of scope.now decisions.old decisions.new
        (λ k env s. (rules.judged env (role_of role) s (joined pos operator first.now others.now)).answer) result }
{
    let label = decisions.enter(role.opens(is_form(operator)), pos)?;
    let value = chained(alloc, scope, decisions, pos, operator, first, others)?;
    Ok(closed_in(alloc, scope.step, decisions, label, pos, value)?)
}

/// Operands with a logical operator between them, as operands of the decision round them. The first
/// token stands at this place.
#[cycle(phrases)]
#[tactic(auto, using(crate::proofs::Parts::parts))]
fn chained(
    alloc: Global,
    scope: &Scope<'_>,
    decisions: &mut Decisions,
    pos: Pos,
    operator: LogicalOperator,
    first: &Expr,
    others: &[Expr],
) -> Result<Judged, Failure<Refusal>>
    ensures { ComesTo judged_of scope.now decisions.old decisions.new
        (λ k env s. along pos (joined_in env pos operator)
        (rules.judged env rules.operand s first.now).answer others.now) result }
{
    let mut value = judged(alloc, scope, Role::Operand, decisions, first)?;
    for other in others {
        value = joined_with(alloc, scope, decisions, pos, operator, value, other)?;
    }
    Ok(value)
}

/// An operand, and a logical operator with what stands right of it.
#[cycle(phrases)]
#[tactic(auto, using(crate::proofs::Parts::parts))]
fn joined_with(
    alloc: Global,
    scope: &Scope<'_>,
    decisions: &mut Decisions,
    pos: Pos,
    operator: LogicalOperator,
    left: Judged,
    right: &Expr,
) -> Result<Judged, Failure<Refusal>>
    ensures { ComesTo judged_of scope.now decisions.old decisions.new
        (λ k env s. answer_at pos (joined_in env pos operator (given (judged_of k left) s) right.now).outcome) result }
{
    let value = judged(alloc, scope, Role::Operand, decisions, right);
    let (left, value) = paired(left, value)?;
    let found = left.joined(alloc, pos, operator, value);
    typed_found(scope.step, pos, any_judged(), found)
}

/// What a name denotes (RM 4.1).
#[cycle(phrases)]
#[tactic(auto, using(crate::proofs::Parts::parts))]
pub fn denoted(
    alloc: Global,
    scope: &Scope<'_>,
    decisions: &mut Decisions,
    name: &Name,
) -> Result<Denoted, Failure<Refusal>>
    ensures { ComesTo denotes scope.now decisions.old decisions.new
        (λ k env s. (rules.denoted env s name.now).answer) result }
{
    let pos = name.prefix.pos;
    let entity = scope.visible(alloc, &name.prefix)?;
    let mut denoted = named(alloc, pos, entity)?;
    for suffix in name.suffixes.as_slice() {
        denoted = suffixed(alloc, scope, decisions, pos, denoted, suffix)?;
    }
    Ok(denoted)
}

/// What a name that begins at this place denotes with one more part.
#[cycle(phrases)]
#[tactic(auto, using(crate::proofs::Parts::parts))]
fn suffixed(
    alloc: Global,
    scope: &Scope<'_>,
    decisions: &mut Decisions,
    pos: Pos,
    prefix: Denoted,
    suffix: &Suffix,
) -> Result<Denoted, Failure<Refusal>>
    ensures { ComesTo denotes scope.now decisions.old decisions.new
        (λ k env s. answer_at pos (suffix_in env pos (given (denotes k prefix) s) suffix.now).outcome) result }
{
    match suffix {
        Suffix::Selected(identifier) => selected(alloc, scope, pos, prefix, identifier),
        Suffix::Attribute(identifier) => attributed(alloc, scope, pos, prefix, identifier),
        Suffix::Applied(exprs) => applied(alloc, scope, decisions, pos, prefix, exprs),
    }
}

/// What a name that begins at this place denotes with expressions in parentheses behind it.
#[cycle(phrases)]
#[tactic(auto, using(crate::proofs::Parts::parts))]
fn applied(
    alloc: Global,
    scope: &Scope<'_>,
    decisions: &mut Decisions,
    pos: Pos,
    prefix: Denoted,
    exprs: &[Expr],
) -> Result<Denoted, Failure<Refusal>>
    ensures { ComesTo denotes scope.now decisions.old decisions.new
        (λ k env s. answer_at pos (applied_in env pos
        (given (denotes k prefix) s) (exprs_of exprs.now)).outcome) result }
{
    let values = all_judged(alloc, scope, decisions, exprs);
    let (prefix, values) = paired(prefix, values)?;
    let found = prefix.applied(alloc, scope, values);
    typed_found(scope.step, pos, Denoted::Thing, found)
}

/// Expressions, each by itself, from the left.
#[cycle(phrases)]
#[tactic(auto, using(crate::proofs::Parts::parts))]
fn all_judged(
    alloc: Global,
    scope: &Scope<'_>,
    decisions: &mut Decisions,
    exprs: &[Expr],
) -> Result<Vec<Judged>, Failure<Refusal>>
    ensures { (p : Pos) → ComesTo all_judged_of scope.now decisions.old decisions.new
        (λ k env s. (rules.all_judged env s p (exprs_of exprs.now)).answer) result }
{
    let mut values = Vec::new(alloc);
    for expr in exprs {
        let value = judged(alloc, scope, Role::Itself, decisions, expr)?;
        values.push(value)?;
    }
    Ok(values)
}
