//! One run of the object.

ghost use Rattle.std.specs.Prelude.{IfOk, IfErr};
ghost use Rattle.object_format.specs.Checked.{IsSound};
ghost use Rattle.workload_runs.specs.Runs.{IsTraceOn, StopsOn};

use cov_base::Failure;
use object_format::Object;
use rv32_emulator::{RunFault, run};
use std::alloc::Global;
use trace_record::Recorder;
use workload::Triple;

/// At most so many instructions a run may take, as where the command `run` is given no budget.
const BUDGET: u32 = 100_000_000;

/// The trace file of the object's run on an input.
pub fn trace_on(alloc: Global, object: &Object, input: Triple) -> Result<Vec<u8>, Failure<RunFault>>
    requires { IsSound object.now }
    ensures traced { IfOk result (λ bytes. IsTraceOn object.now input bytes.items) }
    ensures stopped { IfErr result (λ failure. StopsOn object.now failure input) }
{
    let words = [input.a, input.b, input.c];
    let mut recorder = Recorder::new(alloc, object)?;
    let mut put = Vec::new(alloc);
    match run(alloc, object, &words, BUDGET, &mut recorder, &mut put) {
        Ok(ending) => Ok(recorder.trace(ending.number)?),
        Err(failure) => Err(failure),
    }
}
