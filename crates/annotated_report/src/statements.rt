//! Statements that were not executed.

ghost use Rattle.std.specs.Prelude.{◌≡◌, ◌++◌, length, IfOk, OnOk};
ghost use Rattle.annotated_report.specs.Findings.{statement_finding, unstarted, started_count, one_if};
ghost use Rattle.annotated_report.specs.Marked.{marked};

use crate::finding::{Finding, Key, Missing, Subject};
use cov_base::{Pos, StmtEntry};
use std::alloc::AllocError;

/// Appends a statement that was not started, and answers how many were: one, or none.
fn judge_statement(
    findings: &mut Vec<Finding>,
    number: usize,
    entry: &StmtEntry,
    is_started: bool,
) -> Result<usize, AllocError>
    ensures findings { OnOk result (findings.new.items ≡ findings.old.items ++ statement_finding is_started number entry.now) }
    ensures covered { IfOk result (λ covered. covered ≡ one_if is_started) }
{
    if is_started {
        return Ok(1);
    }
    let pos = Pos {
        file: entry.file,
        line: entry.line,
        col: entry.column,
    };
    findings.push(Finding {
        key: Key {
            pos,
            subject: Subject::Statement(number),
        },
        missing: Missing::Execution,
    })?;
    Ok(0)
}

/// Appends the statements that were not started, by the marks of those that were, and answers how
/// many were.
pub(crate) fn judge_statements(
    findings: &mut Vec<Finding>,
    statements: &[StmtEntry],
    started: &[bool],
) -> Result<usize, AllocError>
    requires { length started.now ≡ length statements.now }
    ensures findings { OnOk result (findings.new.items ≡ findings.old.items ++ unstarted (marked started.now) statements.now) }
    ensures covered { IfOk result (λ covered. covered ≡ started_count (marked started.now) statements.now) }
{
    let mut covered = 0;
    for (number, entry) in statements.iter().enumerate() {
        covered += judge_statement(findings, number, entry, started[number])?;
    }
    Ok(covered)
}
