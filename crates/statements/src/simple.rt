//! Statements without others in them, where they stand.

ghost use Rattle.std.specs.Prelude.{◌≡◌, Some, None, option_map, OnOk};
ghost use Rattle.ada_syntax.specs.StatementTree as text;
ghost use Rattle.ada_tree.specs.View.{statement_at};
ghost use Rattle.ada_entities.specs.EntityViews.{Tables};
ghost use Rattle.ada_rules.specs.Statements as rules;
ghost use Rattle.program_walk.specs.Changes.{Grows, UnlessMemory};
ghost use Rattle.statement_parts.specs.Simple.{in_tree, in_program};
ghost use Rattle.statement_parts.specs.Returns.{returning_of as given_of};
ghost use Rattle.program_walk.specs.Walks.{returning_of, ComesTo, Continues};

use ada_entities::{Refusal, Subtype};
use ada_syntax::{Expr, Initial, Name};
use ada_tree::{Statement, StatementKind};
use cov_base::{Failure, Pos};
use program_walk::{Context, Returning, Walk};
use statement_parts::{
    assignment, call, null_statement, raise, return_nothing, return_value, typed,
};
use std::alloc::Global;

/// `null;` at this place (RM 5.1).
#[tactic(auto, using(crate::proofs::SimpleLaws::parts))]
pub fn null_at(
    context: &Context<'_>,
    walk: &mut Walk,
    pos: Pos,
) -> Result<Statement, Failure<Refusal>>
    ensures comes { ComesTo in_program context.now walk.old walk.new
        (λ k env s. (rules.stated env s (text.null pos)).answer) result }
    ensures continues { UnlessMemory (Continues walk.old walk.new) result }
    ensures grown { OnOk result (Grows walk.old.symbols walk.new.symbols) }
{
    let label = walk.counts.statement(pos)?;
    Ok(null_statement(label))
}

/// An assignment at this place (RM 5.2).
#[tactic(auto, using(crate::proofs::SimpleLaws::parts))]
pub fn assignment_at(
    alloc: Global,
    context: &Context<'_>,
    walk: &mut Walk,
    pos: Pos,
    name: &Name,
    initial: &Initial,
) -> Result<Statement, Failure<Refusal>>
    ensures comes { ComesTo in_program context.now walk.old walk.new
        (λ k env s. (rules.stated env s (text.assignment pos name.now initial.now)).answer) result }
    ensures continues { UnlessMemory (Continues walk.old walk.new) result }
    ensures grown { OnOk result (Grows walk.old.symbols walk.new.symbols) }
{
    let label = walk.counts.statement(pos)?;
    let site = context.place(&walk.symbols).site;
    assignment(
        alloc,
        &site,
        &mut walk.notes.decisions,
        label,
        name,
        initial,
    )
}

/// A call of a procedure at this place (RM 6.4).
#[tactic(auto, using(crate::proofs::SimpleLaws::parts))]
pub fn call_at(
    alloc: Global,
    context: &Context<'_>,
    walk: &mut Walk,
    pos: Pos,
    name: &Name,
) -> Result<Statement, Failure<Refusal>>
    ensures comes { ComesTo in_program context.now walk.old walk.new
        (λ k env s. (rules.stated env s (text.call pos name.now)).answer) result }
    ensures continues { UnlessMemory (Continues walk.old walk.new) result }
    ensures grown { OnOk result (Grows walk.old.symbols walk.new.symbols) }
{
    let label = walk.counts.statement(pos)?;
    let site = context.place(&walk.symbols).site;
    call(alloc, &site, &mut walk.notes.decisions, label, name)
}

/// A raise statement with a name, at this place (RM 11.3).
#[tactic(auto, using(crate::proofs::SimpleLaws::parts))]
pub fn raise_at(
    alloc: Global,
    context: &Context<'_>,
    walk: &mut Walk,
    pos: Pos,
    name: &Name,
) -> Result<Statement, Failure<Refusal>>
    ensures comes { ComesTo in_program context.now walk.old walk.new
        (λ k env s. (rules.stated env s (text.raise pos (Some name.now))).answer) result }
    ensures continues { UnlessMemory (Continues walk.old walk.new) result }
    ensures grown { OnOk result (Grows walk.old.symbols walk.new.symbols) }
{
    let label = walk.counts.statement(pos)?;
    let site = context.place(&walk.symbols).site;
    raise(alloc, &site, &mut walk.notes.decisions, label, name)
}

/// The subtype of what `return` gives, where it gives a value.
fn given_by(returning: Returning) -> Option<Subtype>
    ensures { (k : Tables) → given_of k.types result ≡ returning_of k returning }
{
    match returning {
        Returning::Nothing => None,
        Returning::Value(subtype) => Some(subtype),
    }
}

/// `return;` at this place (RM 6.5).
#[tactic(auto, using(crate::proofs::SimpleLaws::parts))]
pub fn return_at(
    context: &Context<'_>,
    walk: &mut Walk,
    pos: Pos,
) -> Result<Statement, Failure<Refusal>>
    ensures comes { ComesTo in_program context.now walk.old walk.new
        (λ k env s. (rules.stated env s (text.returns pos None)).answer) result }
    ensures continues { UnlessMemory (Continues walk.old walk.new) result }
    ensures grown { OnOk result (Grows walk.old.symbols walk.new.symbols) }
{
    let label = walk.counts.statement(pos)?;
    return_nothing(context.step, label, given_by(context.returning))
}

/// The return of a value at this place (RM 6.5).
#[tactic(auto, using(crate::proofs::SimpleLaws::parts))]
pub fn return_value_at(
    alloc: Global,
    context: &Context<'_>,
    walk: &mut Walk,
    pos: Pos,
    expr: &Expr,
) -> Result<Statement, Failure<Refusal>>
    ensures comes { ComesTo in_program context.now walk.old walk.new
        (λ k env s. (rules.stated env s (text.returns pos (Some expr.now))).answer) result }
    ensures continues { UnlessMemory (Continues walk.old walk.new) result }
    ensures grown { OnOk result (Grows walk.old.symbols walk.new.symbols) }
{
    let label = walk.counts.statement(pos)?;
    let site = context.place(&walk.symbols).site;
    let given = given_by(context.returning);
    return_value(alloc, &site, &mut walk.notes.decisions, label, given, expr)
}

/// A statement, where it is allowed.
fn where_allowed(is_allowed: bool, kind: StatementKind) -> Option<Statement>
    ensures { (k : Tables) → option_map (in_tree k) result
        ≡ rules.where_allowed is_allowed (in_tree k (statement_at kind)) }
{
    if is_allowed {
        Some(Statement { kind })
    } else {
        drop(kind);
        None
    }
}

/// `exit;` at this place (RM 5.7).
#[tactic(auto, using(crate::proofs::SimpleLaws::parts))]
pub fn exit_at(
    context: &Context<'_>,
    walk: &mut Walk,
    pos: Pos,
) -> Result<Statement, Failure<Refusal>>
    ensures comes { ComesTo in_program context.now walk.old walk.new
        (λ k env s. (rules.stated env s (text.exit pos None)).answer) result }
    ensures continues { UnlessMemory (Continues walk.old walk.new) result }
    ensures grown { OnOk result (Grows walk.old.symbols walk.new.symbols) }
{
    let label = walk.counts.statement(pos)?;
    let found = where_allowed(context.is_looping, StatementKind::Exit(label));
    typed(context.step, label.place, null_statement(label), found)
}

/// `raise;` at this place (RM 11.3).
#[tactic(auto, using(crate::proofs::SimpleLaws::parts))]
pub fn raise_again_at(
    context: &Context<'_>,
    walk: &mut Walk,
    pos: Pos,
) -> Result<Statement, Failure<Refusal>>
    ensures comes { ComesTo in_program context.now walk.old walk.new
        (λ k env s. (rules.stated env s (text.raise pos None)).answer) result }
    ensures continues { UnlessMemory (Continues walk.old walk.new) result }
    ensures grown { OnOk result (Grows walk.old.symbols walk.new.symbols) }
{
    let label = walk.counts.statement(pos)?;
    let found = where_allowed(context.is_handling, StatementKind::RaiseAgain(label));
    typed(context.step, label.place, null_statement(label), found)
}

/// `exit when` at this place (RM 5.7).
#[tactic(auto, using(crate::proofs::SimpleLaws::parts))]
pub fn exit_when_at(
    alloc: Global,
    context: &Context<'_>,
    walk: &mut Walk,
    pos: Pos,
    expr: &Expr,
) -> Result<Statement, Failure<Refusal>>
    ensures comes { ComesTo in_program context.now walk.old walk.new
        (λ k env s. (rules.stated env s (text.exit pos (Some expr.now))).answer) result }
    ensures continues { UnlessMemory (Continues walk.old walk.new) result }
    ensures grown { OnOk result (Grows walk.old.symbols walk.new.symbols) }
{
    let label = walk.counts.statement(pos)?;
    let site = context.place(&walk.symbols).site;
    let decision = site.decision(alloc, &mut walk.notes.decisions, label.place, expr)?;
    let found = where_allowed(context.is_looping, StatementKind::ExitWhen(label, decision));
    typed(context.step, label.place, null_statement(label), found)
}

/// An exit statement at this place, with a condition or without one (RM 5.7).
#[tactic(auto, using(crate::proofs::SimpleLaws::parts))]
pub fn any_exit_at(
    alloc: Global,
    context: &Context<'_>,
    walk: &mut Walk,
    pos: Pos,
    condition: &Option<Expr>,
) -> Result<Statement, Failure<Refusal>>
    ensures comes { ComesTo in_program context.now walk.old walk.new
        (λ k env s. (rules.stated env s (text.exit pos condition.now)).answer) result }
    ensures continues { UnlessMemory (Continues walk.old walk.new) result }
    ensures grown { OnOk result (Grows walk.old.symbols walk.new.symbols) }
{
    match condition {
        Some(expr) => exit_when_at(alloc, context, walk, pos, expr),
        None => exit_at(context, walk, pos),
    }
}

/// A return statement at this place, with a value or without one (RM 6.5).
#[tactic(auto, using(crate::proofs::SimpleLaws::parts))]
pub fn any_return_at(
    alloc: Global,
    context: &Context<'_>,
    walk: &mut Walk,
    pos: Pos,
    value: &Option<Expr>,
) -> Result<Statement, Failure<Refusal>>
    ensures comes { ComesTo in_program context.now walk.old walk.new
        (λ k env s. (rules.stated env s (text.returns pos value.now)).answer) result }
    ensures continues { UnlessMemory (Continues walk.old walk.new) result }
    ensures grown { OnOk result (Grows walk.old.symbols walk.new.symbols) }
{
    match value {
        Some(expr) => return_value_at(alloc, context, walk, pos, expr),
        None => return_at(context, walk, pos),
    }
}

/// A raise statement at this place, with a name or without one (RM 11.3).
#[tactic(auto, using(crate::proofs::SimpleLaws::parts))]
pub fn any_raise_at(
    alloc: Global,
    context: &Context<'_>,
    walk: &mut Walk,
    pos: Pos,
    exception: &Option<Name>,
) -> Result<Statement, Failure<Refusal>>
    ensures comes { ComesTo in_program context.now walk.old walk.new
        (λ k env s. (rules.stated env s (text.raise pos exception.now)).answer) result }
    ensures continues { UnlessMemory (Continues walk.old walk.new) result }
    ensures grown { OnOk result (Grows walk.old.symbols walk.new.symbols) }
{
    match exception {
        Some(name) => raise_at(alloc, context, walk, pos, name),
        None => raise_again_at(context, walk, pos),
    }
}
