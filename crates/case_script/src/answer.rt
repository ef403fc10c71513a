//! What a call puts, and its status.

ghost use Rattle.std.specs.Prelude.{◌≡◌, OnOk};

use crate::fault::ScriptFault;
use cov_io::{Sink, SinkFailed};
use std::alloc::Global;

/// Puts a line, with its line feed.
pub fn put_line<S: Sink>(line: &str, out: &mut S) -> Result<(), SinkFailed>
    ensures { OnOk result (S.failures out.new ≡ S.failures out.old) }
{
    out.put(line.as_bytes())?;
    out.put(b"\n")
}

/// Puts the output of a call, and the status that it ended with.
pub fn put_answer<S: Sink>(
    alloc: Global,
    output: &[u8],
    status: u8,
    are_details_left_out: bool,
    out: &mut S,
) -> Result<(), ScriptFault> {
    if are_details_left_out {
        let text = String::from_utf8_lossy(alloc, output)?;
        put_without_details(text.as_str(), out)?;
    } else {
        out.put(output)?;
    }
    put_status(alloc, status, out)
}

/// Puts the number of a status.
pub(crate) fn put_status<S: Sink>(
    alloc: Global,
    status: u8,
    out: &mut S,
) -> Result<(), ScriptFault> {
    let line = format!(in alloc; "status {status}")?;
    put_line(line.as_str(), out)?;
    Ok(())
}

/// Puts all lines of an output but those of digests, and of counts of instructions and of traces.
fn put_without_details<S: Sink>(text: &str, out: &mut S) -> Result<(), SinkFailed> {
    for line in text.lines() {
        if !is_detail(line) {
            out.put(line.as_bytes())?;
            out.put(b"\n")?;
        }
    }
    Ok(())
}

fn is_detail(line: &str) -> bool {
    ["object: ", "file: ", "run: ", "instructions: ", "traces: "]
        .iter()
        .any(|name| line.starts_with(*name))
}
