//! Consolidated files written.

ghost use Rattle.std.specs.Prelude.{◌≡◌, ◌+◌, ◌*◌, length, IfOk, OnOk, Ok};
ghost use Rattle.trace_format.specs.Consolidated.{sealed_by};
ghost use Rattle.trace_format.specs.ConsolidatedFormats.{consolidated_spelling, consolidated_digest};
ghost use Rattle.trace_format.specs.ConsolidatedChecks.{IsOrdered, IsSealed, consolidated_of};

use super::{ConsolidatedParts, MAGIC, VERSION};
use spelling::write_file;
use std::alloc::{AllocError, Global};

/// The one consolidated file of lists that strictly rise, in whose vectors no condition is True that
/// was not evaluated. It takes 96 bytes, 32 for each run, 8 for each start and 16 for each evaluation.
pub fn write_consolidated(
    alloc: Global,
    parts: &ConsolidatedParts<'_>,
) -> Result<Vec<u8>, AllocError>
    requires { IsOrdered parts.now }

    ensures spelled { IfOk result (λ bytes. bytes.items ≡ consolidated_spelling parts.now) }
    ensures len { IfOk result (λ bytes. length bytes.items
        ≡ 96 + 32 * length parts.now.runs + 8 * length parts.now.starts + 16 * length parts.now.vectors) }

    // What was written is read as the same, closed by the digest that ends the bytes.
    ensures closed { OnOk result (IsSealed (sealed_by parts.now (consolidated_digest parts.now))) }
    ensures reads_back { IfOk result (λ bytes. consolidated_of bytes.items
        ≡ Ok (sealed_by parts.now (consolidated_digest parts.now))) }
{
    write_file(alloc, &MAGIC, VERSION, parts)
}
