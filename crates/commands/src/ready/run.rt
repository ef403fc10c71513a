//! `run`: an object is executed on an input, and its trace is made.

ghost use Rattle.std.specs.Prelude.{◌≡◌, ◌<◌, ◌^◌, List, length, IfOk, IfErr};
ghost use Rattle.command_words.specs.Task.{Run};
ghost use Rattle.commands.specs.Content.{IsInputOf, RefusesInput, RunsTo, StopsRun};
ghost use Rattle.commands.specs.Failures.{input_status, run_status};
ghost use Rattle.commands.specs.Outcome.{Prepares};
ghost use Rattle.commands.specs.Prepared.{PreparesFrom, PreparesOver, RunsOnInput, StopsOnInput, IsTraceOf};
ghost use Rattle.commands.specs.Reading.{UnlessMemory};
ghost use Rattle.commands.specs.Ready.{verdict_view};
ghost use Rattle.commands.specs.RunLines as lines;
ghost use Rattle.object_facts.specs.Object.{facts_of};
ghost use Rattle.object_format.specs.Checked.{IsSound};
ghost use Rattle.rv_semantics.specs.declared.stepped.Seen.{Seen};
ghost use Rattle.trace_record.specs.Recorded.{Records};
ghost use Rattle.transcript.specs.Pieces.{IsEnded};

use crate::ready::{Ready, ReadyFile, object_of, read_file};
use crate::run_lines::run_lines;
use crate::status::Status;
use cov_base::Failure;
use cov_io::Files;
use object_format::Object;
use rv32_emulator::{Ending, InputFault, RunFault, parse_input, run};
use std::alloc::{AllocError, Global};
use trace_record::Recorder;

/// Reads the object and the input, runs the one on the other for at most `budget` instructions, and
/// makes the trace and the lines that tell of the run.
pub fn prepare<'a, F: Files>(
    alloc: Global,
    input: &str,
    budget: u32,
    trace: &'a str,
    object: &str,
    files: &mut F,
) -> Result<Ready<'a>, Status>
    ensures prepares { Prepares (Run input.now budget trace.now object.now) (F.held files.old)
        (F.reads_failed files.old) (F.reads_failed files.new) (verdict_view result) }
    ensures same { F.held files.new ≡ F.held files.old }
    ensures writes { F.writes_failed files.new ≡ F.writes_failed files.old }
{
    let bytes = read_file(alloc, 0, object, files)?;
    from_file(alloc, input, budget, trace, bytes.as_slice(), files)
}

/// The same, where the object file holds these bytes.
fn from_file<'a, F: Files>(
    alloc: Global,
    input: &str,
    budget: u32,
    trace: &'a str,
    bytes: &[u8],
    files: &mut F,
) -> Result<Ready<'a>, Status>
    ensures prepares { PreparesFrom (λ object. Run input.now budget trace.now object) bytes.now
        (F.held files.old) (F.reads_failed files.old) (F.reads_failed files.new) (verdict_view result) }
    ensures same { F.held files.new ≡ F.held files.old }
    ensures writes { F.writes_failed files.new ≡ F.writes_failed files.old }
{
    let object = object_of(alloc, bytes)?;
    over_object(alloc, input, budget, trace, &object, files)
}

/// The same, where the object file is that of this object.
fn over_object<'a, F: Files>(
    alloc: Global,
    input: &str,
    budget: u32,
    trace: &'a str,
    object: &Object,
    files: &mut F,
) -> Result<Ready<'a>, Status>
    requires { IsSound object.now }
    ensures prepares { PreparesOver (λ object. Run input.now budget trace.now object) object.now
        (F.held files.old) (F.reads_failed files.old) (F.reads_failed files.new) (verdict_view result) }
    ensures same { F.held files.new ≡ F.held files.old }
    ensures writes { F.writes_failed files.new ≡ F.writes_failed files.old }
{
    let numbers = read_file(alloc, 1, input, files)?;
    let (bytes, text) = executed_on(alloc, object, budget, numbers.as_slice())?;
    Ok(Ready {
        file: Some(ReadyFile { name: trace, bytes }),
        text,
    })
}

/// The trace of a run on an input file of these bytes, and the lines that tell of it.
fn executed_on(
    alloc: Global,
    object: &Object,
    budget: u32,
    input: &[u8],
) -> Result<(Vec<u8>, Vec<u8>), Status>
    requires { IsSound object.now }
    ensures ran { IfOk result (λ made. RunsOnInput object.now budget input.now
        (record { file = made.0.items; text = made.1.items })) }
    ensures stopped { IfErr result (UnlessMemory (StopsOnInput object.now budget input.now)) }
{
    let numbers = numbers_of(alloc, input)?;
    executed(alloc, object, budget, numbers.as_slice())
}

/// The numbers of an input file.
fn numbers_of(alloc: Global, input: &[u8]) -> Result<Vec<i32>, Status>
    ensures read { IfOk result (λ numbers. IsInputOf numbers.items input.now) }
    ensures refused { IfErr result (UnlessMemory (RefusesInput input.now)) }
{
    match parse_input(alloc, input) {
        Ok(numbers) => Ok(numbers),
        Err(failure) => Err(refused_input(failure)),
    }
}

/// The trace of a run, and the lines that tell of it.
fn executed(
    alloc: Global,
    object: &Object,
    budget: u32,
    input: &[i32],
) -> Result<(Vec<u8>, Vec<u8>), Status>
    requires { IsSound object.now }
    ensures ran { IfOk result (λ made. RunsTo object.now budget input.now
        (record { file = made.0.items; text = made.1.items })) }
    ensures stopped { IfErr result (UnlessMemory (StopsRun object.now budget input.now)) }
{
    let mut recorder = Recorder::new(alloc, object)?;
    let mut put = Vec::new(alloc);
    match run(alloc, object, input, budget, &mut recorder, &mut put) {
        Ok(ending) => {
            let (trace, text) = told(alloc, object, &recorder, ending, put.as_slice())?;
            Ok((trace, text))
        }
        Err(failure) => Err(stopped(failure)),
    }
}

/// The trace of a run that was recorded up to its ending, and the lines that tell of it.
fn told(
    alloc: Global,
    object: &Object,
    recorder: &Recorder<'_>,
    ending: Ending,
    put: &[i32],
) -> Result<(Vec<u8>, Vec<u8>), AllocError>
    requires recorded { (ss : List Seen) × Records recorder.now ss × IsEnded (facts_of recorder.now.object) ss }
    requires short_history { length recorder.now.history < 2 ^ 32 }
    ensures file { IfOk result (λ made. IsTraceOf recorder.now ending.number made.0.items) }
    ensures text { IfOk result (λ made.
        made.1.items ≡ lines.run_lines object.now.obligations.exceptions put.now ending.number ending.count
        made.0.items) }
{
    let trace = recorder.trace(ending.number)?;
    let exceptions = object.obligations.exceptions.as_slice();
    let text = run_lines(alloc, exceptions, put, ending, trace.as_slice())?;
    Ok((trace, text))
}

/// The status of an input that is refused.
fn refused_input(failure: Failure<InputFault>) -> Status
    ensures { result ≡ input_status failure }
{
    match failure {
        Failure::Fault(InputFault { line }) => Status::InputRefused { line },
        Failure::WantOfMemory => Status::WantOfMemory,
    }
}

/// The status of a run that has no ending.
fn stopped(failure: Failure<RunFault>) -> Status
    ensures { result ≡ run_status failure }
{
    match failure {
        Failure::Fault(RunFault::OverBudget { count }) => Status::OverBudget { count },
        Failure::Fault(RunFault::Trap { pc, why }) => Status::Trap { pc, why },
        Failure::WantOfMemory => Status::WantOfMemory,
    }
}
