//! Findings that regions hold, and those that none holds.

ghost use Rattle.std.specs.Prelude.{◌≡◌, ◌++◌, [], ◌∷◌, not, IfOk, OnOk, if◌then◌else◌};
ghost use Rattle.std.specs.List.{filter};
ghost use Rattle.exemptions.specs.Regions.{is_exempt};

use crate::finding::Finding;
use crate::regions::Regions;
use std::alloc::{AllocError, Global};

/// Appends a finding, if it is wanted.
fn push_if(selected: &mut Vec<Finding>, is_wanted: bool, finding: Finding) -> Result<(), AllocError>
    ensures { OnOk result (selected.new.items ≡ selected.old.items ++ (if is_wanted then finding ∷ [] else [])) }
{
    if is_wanted {
        selected.push(finding)?;
    }
    Ok(())
}

/// The findings that no region holds, in their order.
#[tactic(auto, using(crate::proofs::Appending::select_more))]
pub fn violations(
    alloc: Global,
    findings: &[Finding],
    regions: &Regions<'_>,
) -> Result<Vec<Finding>, AllocError>
    ensures { IfOk result (λ selected. selected.items ≡ filter (λ f. not (is_exempt regions.now f.key.pos)) findings.now) }
{
    let mut selected = Vec::new(alloc);
    for finding in findings {
        push_if(&mut selected, !regions.hold(finding.key.pos), *finding)?;
    }
    Ok(selected)
}

/// The findings that a region holds, in their order.
#[tactic(auto, using(crate::proofs::Appending::select_more))]
pub fn exempted(
    alloc: Global,
    findings: &[Finding],
    regions: &Regions<'_>,
) -> Result<Vec<Finding>, AllocError>
    ensures { IfOk result (λ selected. selected.items ≡ filter (λ f. is_exempt regions.now f.key.pos) findings.now) }
{
    let mut selected = Vec::new(alloc);
    for finding in findings {
        push_if(&mut selected, regions.hold(finding.key.pos), *finding)?;
    }
    Ok(selected)
}
