//! How many findings each region holds.

ghost use Rattle.std.specs.Prelude.{◌≡◌, ◌<◌, ◌-◌, ◌^◌, ℕ, length, slice_index_or, IfOk, IfSome};
ghost use Rattle.annotated_report.specs.Held.{counted, held_counts};

use crate::finding::Finding;
use crate::regions::Regions;
use std::alloc::{AllocError, Global};

/// Counts one more for a number, if there is one.
fn count(counts: &mut [usize], number: Option<usize>)
    requires within { IfSome number (λ n. n < length counts.old) }
    requires few { (n : ℕ) → slice_index_or counts.old n 0 < 2 ^ 64 - 1 }
    ensures { counts.new ≡ counted number counts.old }
{
    if let Some(number) = number {
        counts[number] += 1;
    }
}

/// For each region how many of the findings it holds that none before it holds, in one pass over the
/// findings.
pub fn held_counts(
    alloc: Global,
    findings: &[Finding],
    regions: &Regions<'_>,
) -> Result<Vec<usize>, AllocError>
    ensures length { IfOk result (λ counts. length counts.items ≡ length regions.now) }
    ensures counts { IfOk result (λ counts. counts.items ≡ held_counts findings.now regions.now) }
{
    let mut counts = vec![in alloc; 0usize; regions.len()]?;
    for finding in findings {
        count(counts.as_mut_slice(), regions.number(finding.key.pos));
    }
    Ok(counts)
}
