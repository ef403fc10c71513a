//! Decisions as objects of JSON.

ghost use Rattle.std.specs.Prelude.{◌≡◌, ◌++◌, ◌∷◌, [], ℕ, Some, map, length, slice_get, IfOk, OnOk};
ghost use Rattle.cov_base.specs.declared.obligations.DecEntry.{DecEntry};
ghost use Rattle.cov_base.specs.Expr.{size, IsPostfixOf};
ghost use Rattle.cov_base.specs.Graph.{graph};
ghost use Rattle.cov_base.specs.Lists.{Everywhere};
ghost use Rattle.cov_base.specs.Path.{IsPathVector};
ghost use Rattle.serde_json.specs.View.{view};
ghost use Rattle.annotated_report.specs.Caller.{IsEvaluated, AreEvaluated};
ghost use Rattle.annotated_report.specs.Findings.{expr_of};
ghost use Rattle.annotated_report.specs.Marked.{collected};
ghost use Rattle.annotated_report.specs.Verdicts.{vectors_of};
ghost use Rattle.json_report.specs.Objects.{told_decision, decision_object, decision_objects, asked_decisions};

use crate::conditions::asked_conditions;
use crate::strings::letter_value;
use crate::vectors::vector_values;
use annotated_report::{Evaluations, asks_outcomes, collect, in_order_once, outcomes};
use condition_graph::Graph;
use cov_base::{DecEntry, Event, Level, Vector};
use mcdc_verdicts::Outcomes;
use serde_json::{Value, json};
use std::alloc::{AllocError, Global};

/// A decision with these outcomes, conditions and vectors.
fn told_decision(
    alloc: Global,
    entry: &DecEntry,
    given: Outcomes,
    conditions: Vec<Value>,
    vectors: Vec<Value>,
) -> Result<Value, AllocError>
    ensures { IfOk result (λ v. view v
        ≡ told_decision entry.now given.given_false given.given_true
        (map view conditions.items) (map view vectors.items)) }
{
    let conditions = Value::Array(conditions);
    let vectors = Value::Array(vectors);
    let letter = letter_value(alloc, entry.letter)?;
    json!(in alloc; {
        "column": entry.column,
        "conditions": conditions,
        "false": given.given_false,
        "file": entry.file,
        "letter": letter,
        "line": entry.line,
        "true": given.given_true,
        "vectors": vectors
    })
}

/// A decision, and what its vectors show, which are found soonest in their order.
fn ordered_value(
    alloc: Global,
    level: Level,
    vectors: &[Vector],
    entry: &DecEntry,
) -> Result<Value, AllocError>
    requires spelled { IsPostfixOf entry.now.expression.postfix (expr_of entry.now) }
    requires placed { length entry.now.conditions ≡ size (expr_of entry.now) }
    requires paths { Everywhere (IsPathVector (graph (expr_of entry.now))) vectors.now }
    ensures { IfOk result (λ v. view v ≡ decision_object level vectors.now entry.now) }
{
    let dec = Graph::of(alloc, &entry.expression)?;
    let given = outcomes(&dec, vectors);
    let conditions = asked_conditions(alloc, level, &dec, vectors, entry)?;
    let texts = vector_values(alloc, &dec, vectors)?;
    told_decision(alloc, entry, given, conditions, texts)
}

/// The same by vectors in any order, each as often as it was given.
fn decision_value(
    alloc: Global,
    level: Level,
    vectors: &[Vector],
    entry: &DecEntry,
) -> Result<Value, AllocError>
    requires spelled { IsPostfixOf entry.now.expression.postfix (expr_of entry.now) }
    requires placed { length entry.now.conditions ≡ size (expr_of entry.now) }
    requires paths { Everywhere (IsPathVector (graph (expr_of entry.now))) vectors.now }
    ensures { IfOk result (λ v. view v ≡ decision_object level vectors.now entry.now) }
{
    let ordered = in_order_once(alloc, vectors)?;
    ordered_value(alloc, level, ordered.as_slice(), entry)
}

/// Appends a decision, and what its vectors show.
fn add_decision(
    alloc: Global,
    values: &mut Vec<Value>,
    level: Level,
    vectors: &[Vector],
    entry: &DecEntry,
) -> Result<(), AllocError>
    requires spelled { IsPostfixOf entry.now.expression.postfix (expr_of entry.now) }
    requires placed { length entry.now.conditions ≡ size (expr_of entry.now) }
    requires paths { Everywhere (IsPathVector (graph (expr_of entry.now))) vectors.now }
    ensures { OnOk result (map view values.new.items
        ≡ map view values.old.items ++ decision_object level vectors.now entry.now ∷ []) }
{
    values.push(decision_value(alloc, level, vectors, entry)?)?;
    Ok(())
}

/// Decisions, by the vectors that were collected of each.
fn collected_values(
    alloc: Global,
    level: Level,
    entries: &[DecEntry],
    evaluations: &[Evaluations],
) -> Result<Vec<Value>, AllocError>
    requires length { length evaluations.now ≡ length entries.now }
    requires evaluated { (d : ℕ) (entry : DecEntry) → slice_get entries.now d ≡ Some entry
        → IsEvaluated entry (collected evaluations.now d) }
    ensures { IfOk result (λ vs. map view vs.items ≡ decision_objects level (collected evaluations.now) entries.now) }
{
    let mut values = Vec::new(alloc);
    for (d, entry) in entries.iter().enumerate() {
        let vectors = evaluations[d].as_slice();
        add_decision(alloc, &mut values, level, vectors, entry)?;
    }
    Ok(values)
}

/// Decisions, by the events, where a level asks for them.
pub(crate) fn decision_values(
    alloc: Global,
    level: Level,
    entries: &[DecEntry],
    events: &[Event],
) -> Result<Vec<Value>, AllocError>
    requires { AreEvaluated entries.now events.now }
    ensures { IfOk result (λ vs. map view vs.items ≡ asked_decisions level (vectors_of events.now) entries.now) }
{
    if asks_outcomes(level) {
        let evaluations = collect(alloc, entries.len(), events)?;
        collected_values(alloc, level, entries, evaluations.as_slice())
    } else {
        Ok(Vec::new(alloc))
    }
}
