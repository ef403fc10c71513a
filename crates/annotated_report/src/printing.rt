//! The report.

ghost use Rattle.std.specs.Prelude.{◌≡◌, ◌++◌, [], length, map, codes, IfOk, OnOk, if◌then◌else◌};
ghost use Rattle.annotated_report.specs.Caller.{AreEvaluated, AreOfStatements};
ghost use Rattle.annotated_report.specs.Findings.{asks_outcomes, asks_pairs};
ghost use Rattle.annotated_report.specs.Report.{head_text, violations_text, total_text, pairs_text, judged_totals, report_text};

use crate::finding::{Finding, PairLine};
use crate::judgement::{Judged, condition_count, judge};
use crate::lines::{put_all_exempted, put_head, put_pairs, put_total, put_violations};
use crate::regions::Regions;
use crate::selection::{exempted, violations};
use crate::words::{asks_outcomes, asks_pairs};
use cov_base::{Event, Level, Obligations, SourceFile};
use std::alloc::{AllocError, Global};

/// Appends what is left to show: the findings that no region holds, and those that one does.
fn put_findings(
    alloc: Global,
    text: &mut Vec<u8>,
    files: &[SourceFile],
    regions: &Regions<'_>,
    findings: &[Finding],
) -> Result<(), AllocError>
    ensures { OnOk result (text.new.items ≡ text.old.items ++ violations_text (map (λ file. file.name) files.now) regions.now findings.now) }
{
    let outside = violations(alloc, findings, regions)?;
    let inside = exempted(alloc, findings, regions)?;
    put_violations(alloc, text, files, outside.as_slice())?;
    put_all_exempted(alloc, text, files, regions, inside.as_slice())
}

/// Appends the totals of decisions, where a level asks for them.
pub(crate) fn put_decisions(
    alloc: Global,
    text: &mut Vec<u8>,
    level: Level,
    covered: usize,
    all: usize,
) -> Result<(), AllocError>
    ensures { OnOk result (text.new.items ≡ text.old.items
        ++ (if asks_outcomes level then total_text (codes "decisions: ") covered all else [])) }
{
    if asks_outcomes(level) {
        put_total(alloc, text, "decisions: ", covered, all as u128)
    } else {
        Ok(())
    }
}

/// Appends the totals of conditions, and the pairs.
fn put_conditions(
    alloc: Global,
    text: &mut Vec<u8>,
    files: &[SourceFile],
    pairs: &[PairLine],
    all: u128,
) -> Result<(), AllocError>
    ensures { OnOk result (text.new.items ≡ text.old.items ++ pairs_text (map (λ file. file.name) files.now) all pairs.now) }
{
    put_total(alloc, text, "conditions: ", pairs.len(), all)?;
    put_pairs(alloc, text, files, pairs)
}

/// The same, where a level asks for it.
fn put_asked_conditions(
    alloc: Global,
    text: &mut Vec<u8>,
    level: Level,
    files: &[SourceFile],
    pairs: &[PairLine],
    all: u128,
) -> Result<(), AllocError>
    ensures { OnOk result (text.new.items ≡ text.old.items
        ++ (if asks_pairs level then pairs_text (map (λ file. file.name) files.now) all pairs.now else [])) }
{
    if asks_pairs(level) {
        put_conditions(alloc, text, files, pairs, all)
    } else {
        Ok(())
    }
}

/// Appends the totals over all obligations, exempt or not, and the pairs that are shown.
fn put_totals(
    alloc: Global,
    text: &mut Vec<u8>,
    level: Level,
    files: &[SourceFile],
    obligations: &Obligations,
    judged: &Judged,
) -> Result<(), AllocError>
    ensures { OnOk result (text.new.items ≡ text.old.items ++ judged_totals level obligations.now (map (λ file. file.name) files.now)
        judged.now.statements judged.now.decisions judged.now.found.pairs.items) }
{
    let statements = obligations.statements.len();
    let conditions = condition_count(obligations.decisions.as_slice());
    put_total(
        alloc,
        text,
        "statements: ",
        judged.statements,
        statements as u128,
    )?;
    put_decisions(
        alloc,
        text,
        level,
        judged.decisions,
        obligations.decisions.len(),
    )?;
    put_asked_conditions(
        alloc,
        text,
        level,
        files,
        judged.found.pairs.as_slice(),
        conditions,
    )
}

/// The report at a level on obligations: of `n` runs with these events, over these files, of which
/// only the names are told. The lines are told in the order of their places; what an exemption region
/// holds is told apart, with where that region begins and why. The totals count all obligations, and
/// at the levels that ask for pairs each condition that is covered is told with the least pair of
/// vectors that shows it.
pub fn report(
    alloc: Global,
    level: Level,
    obligations: &Obligations,
    n: u64,
    events: &[Event],
    files: &[SourceFile],
) -> Result<Vec<u8>, AllocError>
    requires statements { AreOfStatements obligations.now.decisions (length obligations.now.statements) }
    requires evaluated { AreEvaluated obligations.now.decisions events.now }
    ensures { IfOk result (λ text. text.items ≡ report_text level obligations.now n events.now (map (λ file. file.name) files.now)) }
{
    let judged = judge(alloc, level, obligations, events)?;
    let mut text = Vec::new(alloc);
    put_report(alloc, &mut text, level, obligations, n, files, &judged)?;
    Ok(text)
}

/// Appends the report of what was judged.
fn put_report(
    alloc: Global,
    text: &mut Vec<u8>,
    level: Level,
    obligations: &Obligations,
    n: u64,
    files: &[SourceFile],
    judged: &Judged,
) -> Result<(), AllocError>
    ensures { OnOk result (text.new.items ≡ text.old.items ++ (head_text level n
        ++ (violations_text (map (λ file. file.name) files.now) obligations.now.regions judged.now.found.findings.items
        ++ judged_totals level obligations.now (map (λ file. file.name) files.now)
        judged.now.statements judged.now.decisions judged.now.found.pairs.items))) }
{
    let regions = obligations.regions.as_slice();
    put_head(alloc, text, level, n)?;
    put_findings(
        alloc,
        text,
        files,
        &Regions::of(regions),
        judged.found.findings.as_slice(),
    )?;
    put_totals(alloc, text, level, files, obligations, judged)
}
