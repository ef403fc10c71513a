//! What the runs cover, counted.

ghost use Rattle.std.specs.Prelude.{◌≡◌, IfErr, IfOk};
ghost use Rattle.cov_base.specs.Lists.{Everywhere};
ghost use Rattle.object_format.specs.Checked.{IsSound};
ghost use Rattle.workload.specs.Inputs.{inputs_of};
ghost use Rattle.workload_runs.specs.Runs.{IsFair, StopsAmong, TellsCovered, TellsTotals};

use crate::adding::add_runs;
use annotated_report::covered_totals;
use cov_base::{Failure, Level};
use coverage_set::Coverage;
use decision_map::DecisionMap;
use object_format::Object;
use rv32_emulator::RunFault;
use std::alloc::{AllocError, Global};
use workload::inputs_of;

/// The lines that tell how many statements, decisions and conditions the runs of an object on the inputs of the
/// workload with this number cover, of all.
pub fn covered_by_runs(alloc: Global, object: &Object, n: u32) -> Result<Vec<u8>, Failure<RunFault>>
    requires sound { IsSound object.now }
    requires fair { Everywhere (IsFair object.now) inputs_of }
    ensures told { IfOk result (λ text. TellsTotals object.now inputs_of text.items) }
    ensures stopped { IfErr result (StopsAmong object.now inputs_of) }
{
    let map = DecisionMap::of(alloc, object)?;
    let inputs = inputs_of(alloc, n)?;
    let mut coverage = Coverage::new(alloc, object);
    add_runs(alloc, object, &map, inputs.as_slice(), &mut coverage)?;
    Ok(told(alloc, object, &coverage)?)
}

/// The lines of the totals that a coverage comes to.
fn told(alloc: Global, object: &Object, coverage: &Coverage<'_>) -> Result<Vec<u8>, AllocError>
    requires sound { IsSound object.now }
    requires own { coverage.now.object ≡ object.now }
    ensures { IfOk result (λ text. TellsCovered object.now coverage.now text.items) }
{
    let events = coverage.events()?;
    covered_totals(alloc, Level::Mcdc, &object.obligations, events.as_slice())
}
