//! Exempt regions as objects of JSON.

ghost use Rattle.std.specs.Prelude.{◌≡◌, ◌∷◌, [], map, length, slice_index_or, IfOk, IsUtf8};
ghost use Rattle.serde_json.specs.View.{view};
ghost use Rattle.annotated_report.specs.Numbered.{each_numbered};
ghost use Rattle.json_report.specs.Caller.{AreExplainedInUtf8};
ghost use Rattle.json_report.specs.Objects.{region_object, region_objects};

use crate::strings::text_value;
use annotated_report::{Finding, Regions, held_counts};
use cov_base::Region;
use serde_json::{Value, json};
use std::alloc::{AllocError, Global};

/// A region, and how many findings it holds.
fn region_value(alloc: Global, violations: usize, region: &Region) -> Result<Value, AllocError>
    requires { IsUtf8 region.now.why }
    ensures { IfOk result (λ v. view v ≡ region_object violations region.now) }
{
    let why = text_value(alloc, region.why.as_slice())?;
    json!(in alloc; {
        "file": region.file,
        "from": region.from_line,
        "to": region.to_line,
        "violations": violations,
        "why": why
    })
}

/// Regions, each with the number of findings that was counted for it.
fn counted_values(
    alloc: Global,
    counts: &[usize],
    regions: &[Region],
) -> Result<Vec<Value>, AllocError>
    requires length { length counts.now ≡ length regions.now }
    requires explained { AreExplainedInUtf8 regions.now }
    ensures { IfOk result (λ vs. map view vs.items
        ≡ each_numbered (λ n region. region_object (slice_index_or counts.now n 0) region ∷ []) 0 regions.now) }
{
    let mut values = Vec::new(alloc);
    for (n, region) in regions.iter().enumerate() {
        values.push(region_value(alloc, counts[n], region)?)?;
    }
    Ok(values)
}

/// Regions, each with the number of findings that it holds and none before it.
pub(crate) fn region_values(
    alloc: Global,
    found: &[Finding],
    regions: &[Region],
) -> Result<Vec<Value>, AllocError>
    requires { AreExplainedInUtf8 regions.now }
    ensures { IfOk result (λ vs. map view vs.items ≡ region_objects found.now regions.now) }
{
    let counts = held_counts(alloc, found, &Regions::of(regions))?;
    counted_values(alloc, counts.as_slice(), regions)
}
