//! The report as one object of JSON.

ghost use Rattle.std.specs.Prelude.{◌≡◌, map, length, IfOk};
ghost use Rattle.serde_json.specs.View.{view};
ghost use Rattle.annotated_report.specs.Caller.{AreEvaluated, AreOfStatements};
ghost use Rattle.annotated_report.specs.Findings.{findings};
ghost use Rattle.annotated_report.specs.Verdicts.{is_started};
ghost use Rattle.json_report.specs.Caller.{AreNamedInUtf8, AreExplainedInUtf8};
ghost use Rattle.json_report.specs.Objects.{statement_objects, region_objects};
ghost use Rattle.json_report.specs.Text.{json_object};

use crate::decisions::decision_values;
use crate::regions::region_values;
use crate::statements::statement_values;
use crate::strings::name_values;
use annotated_report::{judge, level_word, started};
use cov_base::{Event, Level, Obligations, SourceFile, StmtEntry};
use serde_json::{Value, json};
use std::alloc::{AllocError, Global};

/// The statements, by the events.
fn started_values(
    alloc: Global,
    entries: &[StmtEntry],
    events: &[Event],
) -> Result<Vec<Value>, AllocError>
    ensures { IfOk result (λ vs. map view vs.items ≡ statement_objects (is_started events.now) entries.now) }
{
    let marks = started(alloc, entries.len(), events)?;
    statement_values(alloc, entries, marks.as_slice())
}

/// The regions, by what is left to show.
fn judged_regions(
    alloc: Global,
    level: Level,
    obligations: &Obligations,
    events: &[Event],
) -> Result<Vec<Value>, AllocError>
    requires statements { AreOfStatements obligations.now.decisions (length obligations.now.statements) }
    requires evaluated { AreEvaluated obligations.now.decisions events.now }
    requires explained { AreExplainedInUtf8 obligations.now.regions }
    ensures { IfOk result (λ vs. map view vs.items
        ≡ region_objects (findings level obligations.now events.now) obligations.now.regions) }
{
    let regions = obligations.regions.as_slice();
    if regions.is_empty() {
        return Ok(Vec::new(alloc));
    }
    let judged = judge(alloc, level, obligations, events)?;
    region_values(alloc, judged.found.findings.as_slice(), regions)
}

/// The report as one object.
pub(crate) fn report_value(
    alloc: Global,
    level: Level,
    obligations: &Obligations,
    traces: u64,
    events: &[Event],
    files: &[SourceFile],
) -> Result<Value, AllocError>
    requires statements { AreOfStatements obligations.now.decisions (length obligations.now.statements) }
    requires evaluated { AreEvaluated obligations.now.decisions events.now }
    requires named { AreNamedInUtf8 files.now }
    requires explained { AreExplainedInUtf8 obligations.now.regions }
    ensures { IfOk result (λ v. view v
        ≡ json_object level obligations.now traces events.now (map (λ file. file.name) files.now)) }
{
    let decisions = decision_values(alloc, level, obligations.decisions.as_slice(), events)?;
    let decisions = Value::Array(decisions);
    let names = Value::Array(name_values(alloc, files)?);
    let regions = Value::Array(judged_regions(alloc, level, obligations, events)?);
    let statements = started_values(alloc, obligations.statements.as_slice(), events)?;
    let statements = Value::Array(statements);
    json!(in alloc; {
        "decisions": decisions,
        "files": names,
        "level": level_word(level),
        "regions": regions,
        "statements": statements,
        "traces": traces
    })
}
