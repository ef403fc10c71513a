//! The listing of annotated sources.

ghost use Rattle.std.specs.Prelude.{◌≡◌, ◌++◌, length, IfOk, OnOk};
ghost use Rattle.annotated_report.specs.Caller.{AreEvaluated, AreOfStatements};
ghost use Rattle.annotated_report.specs.Findings.{findings};
ghost use Rattle.xcov_report.specs.Obliged.{region_stretches, all_stretches};
ghost use Rattle.xcov_report.specs.Listing.{xcov_text};

use crate::obligations::{tell_evaluated, tell_statements};
use crate::printing::{put_files, put_head};
use crate::regions::tell_regions;
use crate::table::table;
use crate::told::Stretch;
use annotated_report::{judge, started};
use cov_base::{Event, Level, Obligations, SourceFile};
use std::alloc::{AllocError, Global};

/// Appends what regions tell of their lines, by what is left to show at a level.
fn tell_judged_regions(
    alloc: Global,
    stretches: &mut Vec<Stretch>,
    level: Level,
    obligations: &Obligations,
    events: &[Event],
) -> Result<(), AllocError>
    requires statements { AreOfStatements obligations.now.decisions (length obligations.now.statements) }
    requires evaluated { AreEvaluated obligations.now.decisions events.now }
    ensures { OnOk result (stretches.new.items ≡ stretches.old.items
        ++ region_stretches obligations.now.regions (findings level obligations.now events.now)) }
{
    let regions = obligations.regions.as_slice();
    if regions.is_empty() {
        return Ok(());
    }
    let judged = judge(alloc, level, obligations, events)?;
    tell_regions(alloc, stretches, regions, judged.found.findings.as_slice())
}

/// All that is told of lines at a level.
fn all_stretches(
    alloc: Global,
    level: Level,
    obligations: &Obligations,
    events: &[Event],
) -> Result<Vec<Stretch>, AllocError>
    requires statements { AreOfStatements obligations.now.decisions (length obligations.now.statements) }
    requires evaluated { AreEvaluated obligations.now.decisions events.now }
    ensures { IfOk result (λ stretches. stretches.items ≡ all_stretches level obligations.now events.now) }
{
    let statements = obligations.statements.as_slice();
    let decisions = obligations.decisions.as_slice();
    let marks = started(alloc, statements.len(), events)?;
    let mut stretches = Vec::new(alloc);
    tell_statements(&mut stretches, statements, marks.as_slice())?;
    tell_evaluated(alloc, &mut stretches, level, decisions, events)?;
    tell_judged_regions(alloc, &mut stretches, level, obligations, events)?;
    Ok(stretches)
}

/// The annotated sources at a level on obligations, of `traces` runs with these events: each file in
/// the order of their numbers, each line with its number and a mark. The mark of a line of an exemption
/// region is `*` where a finding stands in the region, else `#`; that of another line says whether all
/// obligations on it are satisfied, as `+`, or none, as `-`, or some, as `!`; a dot marks a line on
/// which none stands. A file may have any bytes, and its lines end by LF or by CR LF.
pub fn xcov(
    alloc: Global,
    level: Level,
    obligations: &Obligations,
    traces: u64,
    events: &[Event],
    files: &[SourceFile],
) -> Result<Vec<u8>, AllocError>
    requires statements { AreOfStatements obligations.now.decisions (length obligations.now.statements) }
    requires evaluated { AreEvaluated obligations.now.decisions events.now }
    ensures { IfOk result (λ text. text.items ≡ xcov_text level obligations.now traces events.now files.now) }
{
    let stretches = all_stretches(alloc, level, obligations, events)?;
    let rows = table(alloc, files, stretches.as_slice())?;
    let mut text = Vec::new(alloc);
    put_head(alloc, &mut text, level, traces)?;
    put_files(alloc, &mut text, files, rows.as_slice())?;
    Ok(text)
}
