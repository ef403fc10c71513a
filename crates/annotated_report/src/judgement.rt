//! What events leave to show of obligations at a level.

ghost use Rattle.std.specs.Prelude.{◌≡◌, ◌<◌, ◌++◌, ℕ, [], Some, length, slice_get, IfOk, OnOk, if◌then◌else◌};
ghost use Rattle.cov_base.specs.declared.obligations.DecEntry.{DecEntry};
ghost use Rattle.annotated_report.specs.Caller.{AreEvaluated, AreOfStatements};
ghost use Rattle.annotated_report.specs.Findings.{asks_outcomes, findings, unsatisfied, started_count, covered_count};
ghost use Rattle.annotated_report.specs.Marked.{marked};
ghost use Rattle.annotated_report.specs.Order.{in_order};
ghost use Rattle.annotated_report.specs.Shown.{all_paired, condition_count};
ghost use Rattle.annotated_report.specs.Verdicts.{is_started, vectors_of};

use crate::conditions::Found;
use crate::decisions::judge_decisions;
use crate::evaluations::collect;
use crate::finding::{sort, sort_pairs};
use crate::marking::started;
use crate::statements::judge_statements;
use crate::words::asks_outcomes;
use cov_base::{DecEntry, Event, Level, Obligations};
use std::alloc::{AllocError, Global};

/// What was judged: what is left to show and the pairs, each in order, and how many statements and
/// decisions are covered.
pub struct Judged {
    pub found: Found,
    pub statements: usize,
    pub decisions: usize,
}

// Written out: a derived drop is proved anew in each crate above.
impl Drop for Judged {
    fn drop(self) {
        let Judged {
            found: _,
            statements: _,
            decisions: _,
        } = self;
    }
}

/// Adds what decisions and their conditions show and lack at a level, by the marks of the statements
/// that were started, and answers how many are covered.
fn judge_evaluated(
    alloc: Global,
    found: &mut Found,
    level: Level,
    decisions: &[DecEntry],
    started: &[bool],
    events: &[Event],
) -> Result<usize, AllocError>
    requires { AreEvaluated decisions.now events.now }
    ensures findings { OnOk result (found.new.findings.items
        ≡ found.old.findings.items ++ unsatisfied level (marked started.now) (vectors_of events.now) decisions.now) }
    ensures pairs { OnOk result (found.new.pairs.items ≡ found.old.pairs.items ++ all_paired level (vectors_of events.now) decisions.now) }
    ensures covered { IfOk result (λ covered. covered ≡ covered_count (vectors_of events.now) decisions.now) }
{
    let evaluations = collect(alloc, decisions.len(), events)?;
    judge_decisions(
        alloc,
        found,
        level,
        decisions,
        started,
        evaluations.as_slice(),
    )
}

/// The same, where a level asks for it.
fn judge_asked(
    alloc: Global,
    found: &mut Found,
    level: Level,
    decisions: &[DecEntry],
    started: &[bool],
    events: &[Event],
) -> Result<usize, AllocError>
    requires { AreEvaluated decisions.now events.now }
    ensures findings { OnOk result (found.new.findings.items ≡ found.old.findings.items
        ++ (if asks_outcomes level then unsatisfied level (marked started.now) (vectors_of events.now) decisions.now else [])) }
    ensures pairs { OnOk result (found.new.pairs.items ≡ found.old.pairs.items
        ++ (if asks_outcomes level then all_paired level (vectors_of events.now) decisions.now else [])) }
    ensures covered { IfOk result (λ covered. covered
        ≡ (if asks_outcomes level then covered_count (vectors_of events.now) decisions.now else 0)) }
{
    if asks_outcomes(level) {
        judge_evaluated(alloc, found, level, decisions, started, events)
    } else {
        Ok(0)
    }
}

/// How many conditions there are.
pub(crate) fn condition_count(decisions: &[DecEntry]) -> u128
    ensures { result ≡ condition_count decisions.now }
{
    let mut count = 0;
    for entry in decisions {
        count += entry.conditions.len() as u128;
    }
    count
}

/// What events leave to show of obligations at a level, and what they cover.
pub fn judge(
    alloc: Global,
    level: Level,
    obligations: &Obligations,
    events: &[Event],
) -> Result<Judged, AllocError>
    requires statements { AreOfStatements obligations.now.decisions (length obligations.now.statements) }
    requires evaluated { AreEvaluated obligations.now.decisions events.now }
    ensures findings { IfOk result (λ judged. judged.found.findings.items ≡ findings level obligations.now events.now) }
    ensures pairs { IfOk result (λ judged. judged.found.pairs.items ≡ in_order (λ line. line.key)
        (if asks_outcomes level then all_paired level (vectors_of events.now) obligations.now.decisions else [])) }
    ensures statements { IfOk result (λ judged. judged.statements ≡ started_count (is_started events.now) obligations.now.statements) }
    ensures decisions { IfOk result (λ judged. judged.decisions
        ≡ (if asks_outcomes level then covered_count (vectors_of events.now) obligations.now.decisions else 0)) }
{
    let entries = obligations.statements.as_slice();
    let decisions = obligations.decisions.as_slice();
    let marks = started(alloc, entries.len(), events)?;
    let marks = marks.as_slice();
    let mut found = Found {
        findings: Vec::new(alloc),
        pairs: Vec::new(alloc),
    };
    let statements = judge_statements(&mut found.findings, entries, marks)?;
    let decisions = judge_asked(alloc, &mut found, level, decisions, marks, events)?;
    sort(&mut found.findings)?;
    sort_pairs(&mut found.pairs)?;
    Ok(Judged {
        found,
        statements,
        decisions,
    })
}
