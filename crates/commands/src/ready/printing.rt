//! The text of a coverage in the form that is asked for.

ghost use Rattle.std.specs.Prelude.{◌≡◌, length, IfOk};
ghost use Rattle.annotated_report.specs.Caller.{AreEvaluated, AreOfStatements};
ghost use Rattle.json_report.specs.Caller.{AreExplainedInUtf8, AreNamedInUtf8};
ghost use Rattle.coverage_set.specs.Covered.{Has, HasRun};
ghost use Rattle.commands.specs.Content.{IsReport};
ghost use Rattle.commands.specs.TaskFiles.{entry_names};
ghost use Rattle.commands.specs.Texts.{coverage_text, names_of};
ghost use Rattle.object_format.specs.Checked.{IsSound};

use annotated_report::report;
use cov_base::{Annotation, Event, Level, Obligations, SourceFile};
use coverage_set::Coverage;
use json_report::json;
use object_format::Object;
use std::alloc::{AllocError, Global};
use xcov_report::xcov;

/// The text of what was covered, over sources of the names that the object lists.
pub fn printed(
    alloc: Global,
    level: Level,
    annotate: Annotation,
    object: &Object,
    coverage: &Coverage<'_>,
    sources: &[SourceFile],
) -> Result<Vec<u8>, AllocError>
    requires sound { IsSound object.now }
    requires own { coverage.now.object ≡ object.now }
    requires named { names_of sources.now ≡ entry_names object.now.files }
    ensures { IfOk result (λ text. IsReport level annotate object.now sources.now (Has coverage.now)
        (HasRun coverage.now) text.items) }
{
    let events = coverage.events()?;
    in_form(
        alloc,
        annotate,
        level,
        &object.obligations,
        coverage.runs(),
        events.as_slice(),
        sources,
    )
}

/// The text in a form, at a level on obligations, of so many traces with these events.
fn in_form(
    alloc: Global,
    annotate: Annotation,
    level: Level,
    obligations: &Obligations,
    traces: u64,
    events: &[Event],
    sources: &[SourceFile],
) -> Result<Vec<u8>, AllocError>
    requires statements { AreOfStatements obligations.now.decisions (length obligations.now.statements) }
    requires evaluated { AreEvaluated obligations.now.decisions events.now }
    requires named { AreNamedInUtf8 sources.now }
    requires explained { AreExplainedInUtf8 obligations.now.regions }
    ensures { IfOk result (λ text. text.items
        ≡ coverage_text annotate level obligations.now traces events.now sources.now) }
{
    match annotate {
        Annotation::Report => report(alloc, level, obligations, traces, events, sources),
        Annotation::Xcov => xcov(alloc, level, obligations, traces, events, sources),
        Annotation::Json => json(alloc, level, obligations, traces, events, sources),
    }
}
