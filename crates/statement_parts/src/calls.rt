//! Calls of procedures (Ada RM 2012, 6.4).

ghost use Rattle.std.specs.Prelude.{◌≡◌};
ghost use Rattle.ada_meaning.specs.Tree as tree;
ghost use Rattle.ada_tree.specs.View.{owner_of, label_of, callee_of, actuals_of};
ghost use Rattle.ada_phrases.specs.Routines.{callee_by};
ghost use Rattle.statement_parts.specs.Calls.{IsProcedureCall, IsBareProcedureCall, IsCall, IsBareCall, IsCallOf};
ghost use Rattle.statement_parts.specs.Simple.{calling, States};

use crate::typing::{null_statement, typed};
use ada_entities::{Refusal, Routine, RoutineName};
use ada_phrases::{Decisions, Denoted};
use ada_syntax::Name;
use ada_tree::{Actual, Callee, Label, Owner, Statement, StatementKind};
use cov_base::{Failure, Seq};
use object_values::{Site, Symbols};
use std::alloc::Global;

/// What calls name, as it is seen (RM 12.3).
fn callee_seen(callee: Callee, seen: Owner) -> Callee
    ensures { callee_of result ≡ callee_by (owner_of seen) (callee_of callee) }
{
    match (callee, seen) {
        (Callee::Subprogram(Owner::Here, number), Owner::Instance(instance)) => {
            Callee::Subprogram(Owner::Instance(instance), number)
        }
        _ => callee,
    }
}

/// A statement that calls this with these actuals.
fn call_statement(label: Label, callee: Callee, actuals: Vec<Actual>) -> Statement
    ensures { result ≡ tree.procedure_call (label_of label) (callee_of callee) (actuals_of actuals.items) }
{
    Statement {
        kind: StatementKind::Call(label, callee, Seq::from(actuals)),
    }
}

/// A call of a procedure with these actuals; none of a function.
fn procedure_call(
    label: Label,
    routine: &Routine,
    seen: Owner,
    actuals: Vec<Actual>,
) -> Option<Statement>
    ensures { IsProcedureCall label routine.now seen actuals.items result }
{
    if routine.result.is_some() {
        return None;
    }
    let callee = callee_seen(routine.callee, seen);
    Some(call_statement(label, callee, actuals))
}

/// A call with actuals. A number that leads nowhere stands for a subprogram that names nothing.
fn full_call(
    symbols: &Symbols,
    label: Label,
    name: RoutineName,
    actuals: Vec<Actual>,
) -> Option<Statement>
    ensures { IsCall symbols.now label name actuals.items result }
{
    match symbols.routine(name.number) {
        Some(routine) => procedure_call(label, routine, name.seen, actuals),
        None => Some(call_statement(label, Callee::TestPut, actuals)),
    }
}

/// A call of this subprogram without actuals: it has no parameters.
fn bare_call_of(alloc: Global, label: Label, routine: &Routine, seen: Owner) -> Option<Statement>
    ensures { IsBareProcedureCall label routine.now seen result }
{
    if !routine.parameters.is_empty() {
        return None;
    }
    procedure_call(label, routine, seen, Vec::new(alloc))
}

/// A call without actuals: the procedure has no parameters.
fn bare_call(alloc: Global, symbols: &Symbols, label: Label, name: RoutineName) -> Option<Statement>
    ensures { IsBareCall symbols.now label name result }
{
    match symbols.routine(name.number) {
        Some(routine) => bare_call_of(alloc, label, routine, name.seen),
        None => Some(call_statement(label, Callee::TestPut, Vec::new(alloc))),
    }
}

/// The call that a name denotes, where it denotes one of a procedure.
fn call_of(alloc: Global, symbols: &Symbols, label: Label, denoted: Denoted) -> Option<Statement>
    ensures { IsCallOf symbols.now label denoted result }
{
    match denoted {
        Denoted::Routine(name) => bare_call(alloc, symbols, label, name),
        Denoted::Call(name, actuals) => full_call(symbols, label, name, actuals),
        other => {
            drop(other);
            None
        }
    }
}

/// A call of a procedure behind its label. Refused at the rules' own place.
#[tactic(auto, using(crate::proofs::Ends::parts))]
pub fn call(
    alloc: Global,
    site: &Site<'_>,
    decisions: &mut Decisions,
    label: Label,
    name: &Name,
) -> Result<Statement, Failure<Refusal>>
    ensures { States site.now decisions.old decisions.new label (λ l env s. calling l env s name.now) result }
{
    let denoted = site.denoted(alloc, decisions, name)?;
    let found = call_of(alloc, site.symbols, label, denoted);
    typed(site.step, label.place, null_statement(label), found)
}
