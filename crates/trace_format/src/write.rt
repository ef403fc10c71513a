//! Traces written as files.

ghost use Rattle.std.specs.Prelude.{◌≡◌, ◌+◌, ◌*◌, ◌<◌, ◌^◌, length, IfOk, OnOk, Ok};
ghost use Rattle.trace_format.specs.Trace.{closed_by};
ghost use Rattle.trace_format.specs.Formats.{trace_parts, trace_spelling, trace_digest};
ghost use Rattle.trace_format.specs.Checks.{Passes, IsClosed, trace_of};

use crate::trace::{MAGIC, Trace, TraceParts, VERSION};
use spelling::write_file;
use std::alloc::{AllocError, Global};

/// The one file of a trace that passes the checks and has fewer than 2^32 entries in either list. It
/// takes 84 bytes and 9 for each entry.
pub fn write_trace(alloc: Global, trace: &Trace) -> Result<Vec<u8>, AllocError>
    requires few_blocks { length trace.now.blocks < 2 ^ 32 }
    requires short_history { length trace.now.history < 2 ^ 32 }
    requires passes { Passes trace.now }

    ensures spelled { IfOk result (λ bytes. bytes.items ≡ trace_spelling trace.now) }
    ensures len { IfOk result (λ bytes. length bytes.items
        ≡ 84 + 9 * (length trace.now.blocks + length trace.now.history)) }

    // What was written is read as the same trace, closed by the digest that ends the bytes.
    ensures closed { OnOk result (IsClosed (closed_by trace.now (trace_digest trace.now))) }
    ensures reads_back { IfOk result (λ bytes. trace_of bytes.items
        ≡ Ok (closed_by trace.now (trace_digest trace.now))) }
{
    write_parts(
        alloc,
        &TraceParts {
            object: trace.object,
            ending: trace.ending,
            blocks: trace.blocks.as_slice(),
            history: trace.history.as_slice(),
        },
    )
}

/// The same, of a trace whose entries stand in lists of others.
pub fn write_parts(alloc: Global, trace: &TraceParts<'_>) -> Result<Vec<u8>, AllocError>
    requires few_blocks { length trace.now.blocks < 2 ^ 32 }
    requires short_history { length trace.now.history < 2 ^ 32 }
    requires passes { Passes trace.now }

    ensures spelled { IfOk result (λ bytes. bytes.items ≡ trace_spelling trace.now) }
    ensures len { IfOk result (λ bytes. length bytes.items
        ≡ 84 + 9 * (length trace.now.blocks + length trace.now.history)) }

    // What was written is read as the same trace, closed by the digest that ends the bytes.
    ensures closed { OnOk result (IsClosed (closed_by trace.now (trace_digest trace.now))) }
    ensures reads_back { IfOk result (λ bytes. trace_of bytes.items
        ≡ Ok (closed_by trace.now (trace_digest trace.now))) }
{
    write_file(alloc, &MAGIC, VERSION, trace)
}
