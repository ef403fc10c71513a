//! What obligations tell of their lines.

ghost use Rattle.std.specs.Prelude.{◌≡◌, ◌<◌, ◌++◌, ℕ, [], Some, length, slice_get, is_some, OnOk, if◌then◌else◌};
ghost use Rattle.cov_base.specs.declared.obligations.DecEntry.{DecEntry};
ghost use Rattle.cov_base.specs.Expr.{Expr, size, IsPostfixOf};
ghost use Rattle.cov_base.specs.Graph.{graph};
ghost use Rattle.cov_base.specs.Lists.{Everywhere};
ghost use Rattle.cov_base.specs.Path.{IsPathVector};
ghost use Rattle.annotated_report.specs.Caller.{AreEvaluated, IsEvaluated};
ghost use Rattle.annotated_report.specs.Findings.{asks_outcomes, asks_pairs, expr_of};
ghost use Rattle.annotated_report.specs.LeastPair.{shown_pair};
ghost use Rattle.annotated_report.specs.Marked.{marked, collected};
ghost use Rattle.annotated_report.specs.Verdicts.{vectors_of};
ghost use Rattle.xcov_report.specs.Obliged.{
  of_line,
  statement_stretches,
  conditions_stretches,
  decision_stretches,
  decisions_stretches,
};

use crate::told::{Stretch, Told};
use annotated_report::{
    Evaluations, asks_outcomes, asks_pairs, collect, in_order_once, outcomes, shown_pair,
};
use condition_graph::Graph;
use cov_base::{CondIx, DecEntry, Event, Level, Place, StmtEntry, Vector};
use std::alloc::{AllocError, Global};

/// What an obligation on a line tells of it.
fn of_line(file: u32, line: u32, is_satisfied: bool) -> Stretch
    ensures { result ≡ of_line file line is_satisfied }
{
    let told = if is_satisfied {
        Told::Satisfied
    } else {
        Told::Lacking
    };
    Stretch {
        file,
        from: line,
        to: line,
        told,
    }
}

/// Appends what statements tell of their lines, by the marks of those that were started.
pub(crate) fn tell_statements(
    stretches: &mut Vec<Stretch>,
    statements: &[StmtEntry],
    started: &[bool],
) -> Result<(), AllocError>
    requires { length started.now ≡ length statements.now }
    ensures { OnOk result (stretches.new.items
        ≡ stretches.old.items ++ statement_stretches (marked started.now) statements.now) }
{
    for (number, entry) in statements.iter().enumerate() {
        stretches.push(of_line(entry.file, entry.line, started[number]))?;
    }
    Ok(())
}

/// Appends what the conditions of a decision tell of their lines: which have a pair of vectors.
fn tell_conditions(
    stretches: &mut Vec<Stretch>,
    level: Level,
    dec: &Graph,
    vectors: &[Vector],
    entry: &DecEntry,
) -> Result<(), AllocError>
    requires graph { dec.now ≡ graph (expr_of entry.now) }
    requires conditions { length entry.now.conditions ≡ length dec.now }
    requires vectors { Everywhere (IsPathVector dec.now) vectors.now }
    ensures { OnOk result (stretches.new.items
        ≡ stretches.old.items ++ conditions_stretches level vectors.now entry.now) }
{
    for (c, place) in entry.conditions.as_slice().iter().enumerate() {
        let is_satisfied = has_pair(level, dec, vectors, c);
        stretches.push(of_line(entry.file, place.line, is_satisfied))?;
    }
    Ok(())
}

/// Whether a pair of vectors shows a condition to matter, by the level's kind of pair.
fn has_pair(level: Level, dec: &Graph, vectors: &[Vector], c: usize) -> bool
    requires condition { c < length dec.now }
    requires vectors { Everywhere (IsPathVector dec.now) vectors.now }
    ensures { (e : Expr) → dec.now ≡ graph e → result ≡ is_some (shown_pair level e vectors.now c) }
{
    // The first test tells that the number fits.
    c < dec.conditions() && shown_pair(level, dec, vectors, CondIx(c as u8)).is_some()
}

/// Appends what the conditions of a decision tell of their lines, where a level asks for it.
fn tell_asked_conditions(
    alloc: Global,
    stretches: &mut Vec<Stretch>,
    level: Level,
    dec: &Graph,
    vectors: &[Vector],
    entry: &DecEntry,
) -> Result<(), AllocError>
    requires graph { dec.now ≡ graph (expr_of entry.now) }
    requires conditions { length entry.now.conditions ≡ length dec.now }
    requires vectors { Everywhere (IsPathVector dec.now) vectors.now }
    ensures { OnOk result (stretches.new.items ≡ stretches.old.items
        ++ (if asks_pairs level then conditions_stretches level vectors.now entry.now else [])) }
{
    if !asks_pairs(level) {
        return Ok(());
    }
    let ordered = in_order_once(alloc, vectors)?;
    tell_conditions(stretches, level, dec, ordered.as_slice(), entry)
}

/// Appends what a decision and its conditions tell of their lines.
fn tell_decision(
    alloc: Global,
    stretches: &mut Vec<Stretch>,
    level: Level,
    vectors: &[Vector],
    entry: &DecEntry,
) -> Result<(), AllocError>
    requires spelled { IsPostfixOf entry.now.expression.postfix (expr_of entry.now) }
    requires placed { length entry.now.conditions ≡ size (expr_of entry.now) }
    requires paths { Everywhere (IsPathVector (graph (expr_of entry.now))) vectors.now }
    ensures { OnOk result (stretches.new.items
        ≡ stretches.old.items ++ decision_stretches level vectors.now entry.now) }
{
    let dec = Graph::of(alloc, &entry.expression)?;
    let given = outcomes(&dec, vectors);
    let covered = given.given_true && given.given_false;
    stretches.push(of_line(entry.file, entry.line, covered))?;
    tell_asked_conditions(alloc, stretches, level, &dec, vectors, entry)
}

/// Appends what decisions and their conditions tell of their lines, by the vectors of each.
fn tell_decisions(
    alloc: Global,
    stretches: &mut Vec<Stretch>,
    level: Level,
    decisions: &[DecEntry],
    evaluations: &[Evaluations],
) -> Result<(), AllocError>
    requires length { length evaluations.now ≡ length decisions.now }
    requires evaluated { (d : ℕ) (entry : DecEntry) → slice_get decisions.now d ≡ Some entry
        → IsEvaluated entry (collected evaluations.now d) }
    ensures { OnOk result (stretches.new.items
        ≡ stretches.old.items ++ decisions_stretches level (collected evaluations.now) decisions.now) }
{
    for (number, entry) in decisions.iter().enumerate() {
        tell_decision(
            alloc,
            stretches,
            level,
            evaluations[number].as_slice(),
            entry,
        )?;
    }
    Ok(())
}

/// Appends what decisions and their conditions tell of their lines, where a level asks for it.
pub(crate) fn tell_evaluated(
    alloc: Global,
    stretches: &mut Vec<Stretch>,
    level: Level,
    decisions: &[DecEntry],
    events: &[Event],
) -> Result<(), AllocError>
    requires { AreEvaluated decisions.now events.now }
    ensures { OnOk result (stretches.new.items ≡ stretches.old.items
        ++ (if asks_outcomes level then decisions_stretches level (vectors_of events.now) decisions.now else [])) }
{
    if !asks_outcomes(level) {
        return Ok(());
    }
    let evaluations = collect(alloc, decisions.len(), events)?;
    tell_decisions(alloc, stretches, level, decisions, evaluations.as_slice())
}
