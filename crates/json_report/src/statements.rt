//! Statements as objects of JSON.

ghost use Rattle.std.specs.Prelude.{◌≡◌, map, length, IfOk};
ghost use Rattle.serde_json.specs.View.{view};
ghost use Rattle.annotated_report.specs.Marked.{marked};
ghost use Rattle.json_report.specs.Objects.{statement_object, statement_objects};

use cov_base::StmtEntry;
use serde_json::{Value, json};
use std::alloc::{AllocError, Global};

/// A statement, and whether it is covered.
fn statement_value(alloc: Global, covered: bool, entry: &StmtEntry) -> Result<Value, AllocError>
    ensures { IfOk result (λ v. view v ≡ statement_object covered entry.now) }
{
    json!(in alloc; {
        "column": entry.column,
        "covered": covered,
        "file": entry.file,
        "line": entry.line
    })
}

/// Statements, by the marks of those that were started.
pub(crate) fn statement_values(
    alloc: Global,
    entries: &[StmtEntry],
    started: &[bool],
) -> Result<Vec<Value>, AllocError>
    requires { length started.now ≡ length entries.now }
    ensures { IfOk result (λ vs. map view vs.items ≡ statement_objects (marked started.now) entries.now) }
{
    let mut values = Vec::new(alloc);
    for (n, entry) in entries.iter().enumerate() {
        values.push(statement_value(alloc, started[n], entry)?)?;
    }
    Ok(values)
}
