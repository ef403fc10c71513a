//! The consolidated file of a coverage.

ghost use Rattle.std.specs.Prelude.{◌≡◌, IfOk};
ghost use Rattle.commands.specs.Content.{file_lines};
ghost use Rattle.commands.specs.Covering.{IsConsolidationOf};
ghost use Rattle.commands.specs.Ready.{verdict_view};

use crate::ready::{Ready, ReadyFile};
use crate::run_lines::closing_of;
use crate::status::Status;
use coverage_set::{Coverage, write_consolidated};
use std::alloc::{AllocError, Global};

/// The consolidated file of what was covered, to have this name, and the lines that tell of it.
pub fn consolidated<'a>(
    alloc: Global,
    name: &'a str,
    coverage: &Coverage<'_>,
) -> Result<Ready<'a>, Status>
    ensures { IsConsolidationOf name.entry.now coverage.now (verdict_view result) }
{
    let bytes = write_consolidated(alloc, coverage)?;
    let text = lines(alloc, coverage.runs(), bytes.as_slice())?;
    Ok(Ready {
        file: Some(ReadyFile { name, bytes }),
        text,
    })
}

/// The lines that tell of a consolidated file of so many runs.
fn lines(alloc: Global, count: u64, file: &[u8]) -> Result<Vec<u8>, AllocError>
    ensures { IfOk result (λ text. text.items ≡ file_lines count file.now) }
{
    let closing = hex::encode(alloc, closing_of(file))?;
    let text = format!(in alloc; "traces: {count}\nfile: {closing}\n")?;
    Ok(text.into_bytes())
}
