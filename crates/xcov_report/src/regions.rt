//! What regions tell of their lines.

ghost use Rattle.std.specs.Prelude.{◌≡◌, ◌++◌, ◌∷◌, [], length, nat_lt, slice_index_or, OnOk};
ghost use Rattle.annotated_report.specs.Numbered.{each_numbered};
ghost use Rattle.xcov_report.specs.Obliged.{of_region, region_stretches};

use crate::told::{Stretch, Told};
use annotated_report::{Finding, Regions, held_counts};
use cov_base::Region;
use std::alloc::{AllocError, Global};

/// What a region tells of its lines, by whether a finding stands in it.
fn of_region(region: &Region, is_exempted: bool) -> Stretch
    ensures { result ≡ of_region is_exempted region.now }
{
    let told = if is_exempted {
        Told::Exempted
    } else {
        Told::Region
    };
    Stretch {
        file: region.file,
        from: region.from_line,
        to: region.to_line,
        told,
    }
}

/// Appends what regions tell of their lines, by how many findings were counted for each.
fn tell_counted(
    stretches: &mut Vec<Stretch>,
    regions: &[Region],
    counts: &[usize],
) -> Result<(), AllocError>
    requires { length counts.now ≡ length regions.now }
    ensures { OnOk result (stretches.new.items ≡ stretches.old.items
        ++ each_numbered (λ n region. of_region (nat_lt 0 (slice_index_or counts.now n 0)) region ∷ []) 0 regions.now) }
{
    for (number, region) in regions.iter().enumerate() {
        let is_exempted = 0 < counts[number];
        stretches.push(of_region(region, is_exempted))?;
    }
    Ok(())
}

/// Appends what regions tell of their lines: each of them takes the findings that stand in it and in
/// none before it.
pub(crate) fn tell_regions(
    alloc: Global,
    stretches: &mut Vec<Stretch>,
    regions: &[Region],
    findings: &[Finding],
) -> Result<(), AllocError>
    ensures { OnOk result (stretches.new.items ≡ stretches.old.items ++ region_stretches regions.now findings.now) }
{
    let counts = held_counts(alloc, findings, &Regions::of(regions))?;
    tell_counted(stretches, regions, counts.as_slice())
}
