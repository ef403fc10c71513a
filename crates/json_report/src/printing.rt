//! The report as a text.

ghost use Rattle.std.specs.Prelude.{◌≡◌, map, length, IfOk};
ghost use Rattle.serde_json.specs.View.{view};
ghost use Rattle.annotated_report.specs.Caller.{AreEvaluated, AreOfStatements};
ghost use Rattle.json_report.specs.Caller.{AreNamedInUtf8, AreExplainedInUtf8};
ghost use Rattle.json_report.specs.Text.{json_object, json_text};

use crate::whole::report_value;
use cov_base::{Event, Level, Obligations, SourceFile};
use std::alloc::{AllocError, Global};

/// The report at a level on obligations as JSON: of so many traces with these events, over these files,
/// of which only the names are told. The text is one object with no space in it, whose keys are in the
/// order of their bytes, and a line feed.
pub fn json(
    alloc: Global,
    level: Level,
    obligations: &Obligations,
    traces: u64,
    events: &[Event],
    files: &[SourceFile],
) -> Result<Vec<u8>, AllocError>
    requires statements { AreOfStatements obligations.now.decisions (length obligations.now.statements) }
    requires evaluated { AreEvaluated obligations.now.decisions events.now }
    requires named { AreNamedInUtf8 files.now }
    requires explained { AreExplainedInUtf8 obligations.now.regions }
    ensures { IfOk result (λ text. text.items
        ≡ json_text level obligations.now traces events.now (map (λ file. file.name) files.now)) }
{
    let value = report_value(alloc, level, obligations, traces, events, files)?;
    let mut text = value.to_vec(alloc)?;
    text.push(b'\n')?;
    Ok(text)
}
