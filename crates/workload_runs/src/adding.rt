//! The traces of runs, added one after another.

ghost use Rattle.std.specs.Prelude.{◌≡◌, ◌↔◌, ◌⊎◌, IfErr, OnOk};
ghost use Rattle.cov_base.specs.declared.event.Event.{Event};
ghost use Rattle.cov_base.specs.declared.failure.Failure.TheVariants.{WantOfMemory};
ghost use Rattle.cov_base.specs.Lists.{Everywhere, Somewhere};
ghost use Rattle.coverage_set.specs.Covered.{Has};
ghost use Rattle.object_format.specs.Checked.{IsSound};
ghost use Rattle.workload.specs.declared.inputs.Triple.{Triple};
ghost use Rattle.workload_runs.specs.Runs.{AddsRun, AddsRuns, HasEnded, IsFair, IsTraceOn, StopsAmong, StopsOn, TellsOn};

use crate::running::trace_on;
use cov_base::Failure;
use coverage_set::Coverage;
use decision_map::DecisionMap;
use object_format::Object;
use rv32_emulator::RunFault;
use std::alloc::Global;
use trace_format::TraceView;
use workload::Triple;

/// Runs the object on these inputs, and adds what each trace says.
pub fn add_runs(
    alloc: Global,
    object: &Object,
    map: &DecisionMap<'_>,
    inputs: &[Triple],
    coverage: &mut Coverage<'_>,
) -> Result<(), Failure<RunFault>>
    requires sound { IsSound object.now }
    requires of_object { map.now ≡ object.now }
    requires own { object.now ≡ coverage.old.object }
    requires fair { Everywhere (IsFair object.now) inputs.now }
    ensures own { coverage.new.object ≡ coverage.old.object }
    ensures ended { OnOk result (Everywhere (HasEnded object.now) inputs.now) }
    ensures added { OnOk result (AddsRuns object.now inputs.now coverage.old coverage.new) }
    ensures stopped { IfErr result (StopsAmong object.now inputs.now) }
{
    for place in 0..inputs.len() {
        add_run(alloc, object, map, inputs[place], coverage)?;
    }
    Ok(())
}

/// Runs the object on an input, and adds what the trace says.
fn add_run(
    alloc: Global,
    object: &Object,
    map: &DecisionMap<'_>,
    input: Triple,
    coverage: &mut Coverage<'_>,
) -> Result<(), Failure<RunFault>>
    requires sound { IsSound object.now }
    requires of_object { map.now ≡ object.now }
    requires own { object.now ≡ coverage.old.object }
    requires fair { IsFair object.now input }
    ensures own { coverage.new.object ≡ coverage.old.object }
    ensures ended { OnOk result (HasEnded object.now input) }
    ensures added { OnOk result (AddsRun object.now input coverage.old coverage.new) }
    ensures stopped { IfErr result (λ failure. StopsOn object.now failure input) }
{
    let bytes = trace_on(alloc, object, input)?;
    add_trace(map, bytes.as_slice(), coverage)
}

/// Adds what the trace file of a run says. It is a trace of the object, since the object's own run made it.
fn add_trace(
    map: &DecisionMap<'_>,
    bytes: &[u8],
    coverage: &mut Coverage<'_>,
) -> Result<(), Failure<RunFault>>
    requires sound { IsSound map.now }
    requires own { map.now ≡ coverage.old.object }
    requires traced { (input : Triple) × IsFair map.now input × IsTraceOn map.now input bytes.now }
    ensures own { coverage.new.object ≡ coverage.old.object }
    ensures added { (input : Triple) → IsFair map.now input → IsTraceOn map.now input bytes.now
        → OnOk result (AddsRun map.now input coverage.old coverage.new) }
    ensures memory { IfErr result (λ failure. failure ≡ WantOfMemory) }
{
    let view = match TraceView::view(bytes) {
        Ok(view) => view,
        Err(_) => unreachable!(),
    };
    match coverage.add_trace(map, &view) {
        Ok(()) => Ok(()),
        Err(Failure::WantOfMemory) => Err(Failure::WantOfMemory),
        Err(Failure::Fault(_)) => unreachable!(),
    }
}
