//! Decisions: what they lack, and what their conditions lack.

ghost use Rattle.std.specs.Prelude.{◌≡◌, ◌++◌, ℕ, [], Some, length, slice_get, IfOk, OnOk, if◌then◌else◌};
ghost use Rattle.cov_base.specs.declared.obligations.DecEntry.{DecEntry};
ghost use Rattle.cov_base.specs.Expr.{size, IsPostfixOf};
ghost use Rattle.cov_base.specs.Graph.{graph};
ghost use Rattle.cov_base.specs.Lists.{Everywhere};
ghost use Rattle.cov_base.specs.Path.{IsPathVector};
ghost use Rattle.annotated_report.specs.Caller.{IsEvaluated};
ghost use Rattle.annotated_report.specs.Findings.{
  asks_pairs,
  expr_of,
  outcome_finding,
  unpaired,
  findings_of,
  unsatisfied,
  one_if,
  covered_count,
};
ghost use Rattle.annotated_report.specs.Marked.{marked, collected};
ghost use Rattle.annotated_report.specs.Shown.{asked_pairs, all_paired};
ghost use Rattle.annotated_report.specs.Verdicts.{is_covered};

use crate::conditions::{Found, judge_conditions};
use crate::evaluations::Evaluations;
use crate::finding::{Finding, Key, Missing, Subject};
use crate::ordered::in_order_once;
use crate::verdict::{missing, outcomes};
use crate::words::asks_pairs;
use condition_graph::Graph;
use cov_base::{DecEntry, Level, Pos, Vector};
use std::alloc::{AllocError, Global};

/// Adds what a decision lacks, if anything, where its statement was executed.
fn add_missing(
    findings: &mut Vec<Finding>,
    executed: bool,
    number: usize,
    entry: &DecEntry,
    missing: Option<Missing>,
) -> Result<(), AllocError>
    ensures { OnOk result (findings.new.items ≡ findings.old.items ++ (if executed then outcome_finding number entry.now missing else [])) }
{
    match missing {
        Some(missing) if executed => {
            let pos = Pos {
                file: entry.file,
                line: entry.line,
                col: entry.column,
            };
            let subject = Subject::Decision(number);
            let key = Key { pos, subject };
            findings.push(Finding { key, missing })?;
            Ok(())
        }
        _ => Ok(()),
    }
}

/// Adds what the conditions of a decision show and lack, where a level asks for it.
fn judge_pairs(
    alloc: Global,
    found: &mut Found,
    level: Level,
    dec: &Graph,
    vectors: &[Vector],
    covered: bool,
    number: usize,
    entry: &DecEntry,
) -> Result<(), AllocError>
    requires graph { dec.now ≡ graph (expr_of entry.now) }
    requires conditions { length entry.now.conditions ≡ length dec.now }
    requires vectors { Everywhere (IsPathVector dec.now) vectors.now }
    requires covered { covered ≡ is_covered (expr_of entry.now) vectors.now }
    ensures findings { OnOk result (found.new.findings.items
        ≡ found.old.findings.items ++ (if asks_pairs level then unpaired level vectors.now number entry.now else [])) }
    ensures pairs { OnOk result (found.new.pairs.items ≡ found.old.pairs.items ++ asked_pairs level vectors.now number entry.now) }
{
    if !asks_pairs(level) {
        return Ok(());
    }
    let ordered = in_order_once(alloc, vectors)?;
    let ordered = ordered.as_slice();
    judge_conditions(alloc, found, level, dec, ordered, covered, number, entry)
}

/// Adds what a decision and its conditions show and lack at a level, and answers how many decisions
/// are covered: one, or none.
fn judge_decision(
    alloc: Global,
    found: &mut Found,
    level: Level,
    executed: bool,
    vectors: &[Vector],
    number: usize,
    entry: &DecEntry,
) -> Result<usize, AllocError>
    requires spelled { IsPostfixOf entry.now.expression.postfix (expr_of entry.now) }
    requires placed { length entry.now.conditions ≡ size (expr_of entry.now) }
    requires paths { Everywhere (IsPathVector (graph (expr_of entry.now))) vectors.now }
    ensures findings { OnOk result (found.new.findings.items
        ≡ found.old.findings.items ++ findings_of level executed vectors.now number entry.now) }
    ensures pairs { OnOk result (found.new.pairs.items ≡ found.old.pairs.items ++ asked_pairs level vectors.now number entry.now) }
    ensures covered { IfOk result (λ covered. covered ≡ one_if (is_covered (expr_of entry.now) vectors.now)) }
{
    let dec = Graph::of(alloc, &entry.expression)?;
    let given = outcomes(&dec, vectors);
    let covered = given.given_true && given.given_false;
    let lacks = missing(vectors, given);
    add_missing(&mut found.findings, executed, number, entry, lacks)?;
    judge_pairs(alloc, found, level, &dec, vectors, covered, number, entry)?;
    Ok(usize::from(covered))
}

/// Adds what decisions and their conditions show and lack at a level, by the marks of the statements
/// that were started and by the vectors of the decisions, and answers how many are covered.
pub(crate) fn judge_decisions(
    alloc: Global,
    found: &mut Found,
    level: Level,
    decisions: &[DecEntry],
    started: &[bool],
    evaluations: &[Evaluations],
) -> Result<usize, AllocError>
    requires length { length evaluations.now ≡ length decisions.now }
    requires evaluated { (d : ℕ) (entry : DecEntry) → slice_get decisions.now d ≡ Some entry → IsEvaluated entry (collected evaluations.now d) }
    ensures findings { OnOk result (found.new.findings.items
        ≡ found.old.findings.items ++ unsatisfied level (marked started.now) (collected evaluations.now) decisions.now) }
    ensures pairs { OnOk result (found.new.pairs.items ≡ found.old.pairs.items ++ all_paired level (collected evaluations.now) decisions.now) }
    ensures covered { IfOk result (λ covered. covered ≡ covered_count (collected evaluations.now) decisions.now) }
{
    let mut covered = 0;
    for (number, entry) in decisions.iter().enumerate() {
        let executed = is_marked(started, entry.statement.0 as usize);
        let vectors = evaluations[number].as_slice();
        covered += judge_decision(alloc, found, level, executed, vectors, number, entry)?;
    }
    Ok(covered)
}

/// Whether a number is marked.
fn is_marked(marks: &[bool], number: usize) -> bool
    ensures { result ≡ marked marks.now number }
{
    number < marks.len() && marks[number]
}
