//! The public call: words in, a status out.

ghost use Rattle.std.specs.Prelude.{◌≡◌, map, string_bytes, IfErr};
ghost use Rattle.command_words.specs.Command.{task_view};
ghost use Rattle.command_words.specs.Task.{IsWithinLimits, task_of};
ghost use Rattle.commands.specs.Clauses.{UsageIsExact, DoneIsWhole, RefusalsLeaveFiles, OthersStay, RefusalsPutOneLine, RisenReadsAreTold, ReadFaultHasCause, WriteFaultHasCause};
ghost use Rattle.commands.specs.Complete.{LegalSourcesCompile, ProgramsRun, ProgramsDoNotTrap, TracesAreCovered, TracesAreConsolidated};
ghost use Rattle.commands.specs.CompleteRuns.{RunsAreTakenByCoverage, RunsAreTakenByConsolidation};
ghost use Rattle.commands.specs.Headline.{CoverageTellsTheSource};
ghost use Rattle.commands.specs.Leaves.{CompileLeavesAnObject, RunLeavesATrace};
ghost use Rattle.commands.specs.Outcome.{call_of, Prepares, Because, Answers};
ghost use Rattle.commands.specs.Ready.{answer_view, TellsSourceOf};
ghost use Rattle.commands.specs.Regrouping.{FilesAreCovered, FilesAreConsolidated};
ghost use Rattle.commands.specs.Regrouping.{CoverageKnowsNoGrouping, ConsolidationKnowsNoGrouping};
ghost use Rattle.commands.specs.RunsConsolidated.{RunsAreConsolidated, ProgramsAreConsolidated};
ghost use Rattle.commands.specs.RunsCovered.{RunsAreCovered};
ghost use Rattle.commands.specs.ShownPairs.{LeastPairsAreShown, LeastPairsAreInJson};

use crate::compile;
use command_words::{Command, words_of};
use commands::{
    OUT_OF_MEMORY_LINE, Product, Ready, Refusal, Status, USAGE_LINE, coverage, deliver, put_line,
    refuse, run,
};
use cov_base::Failure;
use cov_io::{Files, Sink};
use std::alloc::Global;

/// Does what the command words ask for: reads files, then writes a file or none, then puts the
/// output, or the one line that tells why there is none.
pub fn gnatcov<F: Files, S: Sink>(
    alloc: Global,
    words: &[String],
    files: &mut F,
    out: &mut S,
) -> Status
    // Why each status comes, and what it leaves.
    ensures answers { Answers (task_of (map string_bytes words.now))
        (call_of F.held F.reads_failed F.writes_failed S.written S.failures files.old files.new out.old out.new)
        result }

    // What follows from it, for a reader.
    ensures usage { UsageIsExact (task_of (map string_bytes words.now)) result }
    ensures done { DoneIsWhole (task_of (map string_bytes words.now))
        (call_of F.held F.reads_failed F.writes_failed S.written S.failures files.old files.new out.old out.new)
        result }
    ensures unchanged { RefusalsLeaveFiles
        (call_of F.held F.reads_failed F.writes_failed S.written S.failures files.old files.new out.old out.new)
        result }
    ensures others { OthersStay (task_of (map string_bytes words.now))
        (call_of F.held F.reads_failed F.writes_failed S.written S.failures files.old files.new out.old out.new) }
    ensures one_line { RefusalsPutOneLine (task_of (map string_bytes words.now))
        (call_of F.held F.reads_failed F.writes_failed S.written S.failures files.old files.new out.old out.new)
        result }
    ensures read_rose { RisenReadsAreTold
        (call_of F.held F.reads_failed F.writes_failed S.written S.failures files.old files.new out.old out.new)
        result }
    ensures read_fault { ReadFaultHasCause (task_of (map string_bytes words.now))
        (call_of F.held F.reads_failed F.writes_failed S.written S.failures files.old files.new out.old out.new)
        result }
    ensures write_fault { WriteFaultHasCause (task_of (map string_bytes words.now))
        (call_of F.held F.reads_failed F.writes_failed S.written S.failures files.old files.new out.old out.new)
        result }

    // What coverage puts in each of its forms, over an object and the traces of its runs; and over the object of
    // a program and traces of its runs: the report of the program's own executions.
    ensures runs { RunsAreCovered (task_of (map string_bytes words.now))
        (call_of F.held F.reads_failed F.writes_failed S.written S.failures files.old files.new out.old out.new)
        result }
    ensures source { CoverageTellsTheSource (task_of (map string_bytes words.now))
        (call_of F.held F.reads_failed F.writes_failed S.written S.failures files.old files.new out.old out.new)
        result }

    // At a level that asks for pairs, that report ends in the least pairs of vectors that occurred in the
    // program's own executions, one for each condition that has a pair; and JSON carries the same.
    ensures pairs { LeastPairsAreShown (task_of (map string_bytes words.now))
        (call_of F.held F.reads_failed F.writes_failed S.written S.failures files.old files.new out.old out.new)
        result }
    ensures json_pairs { LeastPairsAreInJson (task_of (map string_bytes words.now))
        (call_of F.held F.reads_failed F.writes_failed S.written S.failures files.old files.new out.old out.new)
        result }

    // What consolidate writes over an object and the traces of its runs: the one file of these runs. And over
    // the object of a program and traces of its runs on any inputs.
    ensures consolidated { RunsAreConsolidated (task_of (map string_bytes words.now))
        (call_of F.held F.reads_failed F.writes_failed S.written S.failures files.old files.new out.old out.new)
        result }
    ensures merged { ProgramsAreConsolidated (task_of (map string_bytes words.now))
        (call_of F.held F.reads_failed F.writes_failed S.written S.failures files.old files.new out.old out.new)
        result }

    // What coverage and consolidate make of any files over any object; so runs may be grouped into files, and
    // these be named, in any way: coverage puts the same text in each form, and consolidate writes the same bytes.
    ensures files_covered { FilesAreCovered (task_of (map string_bytes words.now))
        (call_of F.held F.reads_failed F.writes_failed S.written S.failures files.old files.new out.old out.new)
        result }
    ensures files_merged { FilesAreConsolidated (task_of (map string_bytes words.now))
        (call_of F.held F.reads_failed F.writes_failed S.written S.failures files.old files.new out.old out.new)
        result }
    ensures grouping { CoverageKnowsNoGrouping (task_of (map string_bytes words.now))
        (call_of F.held F.reads_failed F.writes_failed S.written S.failures files.old files.new out.old out.new)
        result }
    ensures merged_grouping { ConsolidationKnowsNoGrouping (task_of (map string_bytes words.now))
        (call_of F.held F.reads_failed F.writes_failed S.written S.failures files.old files.new out.old out.new)
        result }

    // What compile and run leave: an object of the sources that were read, and the trace of the object's run on
    // the input.
    ensures object { CompileLeavesAnObject (task_of (map string_bytes words.now))
        (call_of F.held F.reads_failed F.writes_failed S.written S.failures files.old files.new out.old out.new)
        result }
    ensures trace { RunLeavesATrace (task_of (map string_bytes words.now))
        (call_of F.held F.reads_failed F.writes_failed S.written S.failures files.old files.new out.old out.new)
        result }

    // Legal programs compile, their runs end in time and never trap, and the traces of these are covered
    // and consolidated.
    ensures compiles { LegalSourcesCompile (task_of (map string_bytes words.now))
        (call_of F.held F.reads_failed F.writes_failed S.written S.failures files.old files.new out.old out.new)
        result }
    ensures ends { ProgramsRun (task_of (map string_bytes words.now))
        (call_of F.held F.reads_failed F.writes_failed S.written S.failures files.old files.new out.old out.new)
        result }
    ensures no_trap { ProgramsDoNotTrap (task_of (map string_bytes words.now))
        (call_of F.held F.reads_failed F.writes_failed S.written S.failures files.old files.new out.old out.new)
        result }
    ensures covers { TracesAreCovered (task_of (map string_bytes words.now))
        (call_of F.held F.reads_failed F.writes_failed S.written S.failures files.old files.new out.old out.new)
        result }
    ensures consolidates { TracesAreConsolidated (task_of (map string_bytes words.now))
        (call_of F.held F.reads_failed F.writes_failed S.written S.failures files.old files.new out.old out.new)
        result }

    // Over any object, files of runs of it with disciplined transcripts are covered and consolidated.
    ensures covers_runs { RunsAreTakenByCoverage (task_of (map string_bytes words.now))
        (call_of F.held F.reads_failed F.writes_failed S.written S.failures files.old files.new out.old out.new)
        result }
    ensures consolidates_runs { RunsAreTakenByConsolidation (task_of (map string_bytes words.now))
        (call_of F.held F.reads_failed F.writes_failed S.written S.failures files.old files.new out.old out.new)
        result }
{
    answer(alloc, words, files, out)
}

/// The answer to the words.
fn answer<F: Files, S: Sink>(alloc: Global, words: &[String], files: &mut F, out: &mut S) -> Status
    ensures { Answers (task_of (map string_bytes words.now))
        (call_of F.held F.reads_failed F.writes_failed S.written S.failures files.old files.new out.old out.new)
        result }
{
    match words_of(alloc, words) {
        Ok(command) => obey(alloc, &command, files, out),
        Err(Failure::Fault(_)) => {
            put_line(USAGE_LINE, out);
            Status::Usage
        }
        Err(Failure::WantOfMemory) => {
            put_line(OUT_OF_MEMORY_LINE, out);
            Status::WantOfMemory
        }
    }
}

/// Obeys a command: all is read, checked and made before anything is written or put.
fn obey<F: Files, S: Sink>(
    alloc: Global,
    command: &Command<'_>,
    files: &mut F,
    out: &mut S,
) -> Status
    requires { IsWithinLimits (task_view command.now) }
    ensures { Because (task_view command.now)
        (call_of F.held F.reads_failed F.writes_failed S.written S.failures files.old files.new out.old out.new)
        result }
{
    match prepare(alloc, command, files) {
        Ok(ready) => deliver(&ready, files, out),
        Err(refusal) => refuse(alloc, command, &refusal, out),
    }
}

/// Makes the output of a command, or says why there is none.
fn prepare<'a, F: Files>(
    alloc: Global,
    command: &Command<'a>,
    files: &mut F,
) -> Result<Ready<'a>, Refusal>
    requires { IsWithinLimits (task_view command.now) }
    ensures prepares { Prepares (task_view command.now) (F.held files.old) (F.reads_failed files.old)
        (F.reads_failed files.new) (answer_view result) }
    ensures named { IfErr result (TellsSourceOf (task_view command.now) (F.held files.old)) }
    ensures same { F.held files.new ≡ F.held files.old }
    ensures writes { F.writes_failed files.new ≡ F.writes_failed files.old }
{
    match command {
        Command::Compile {
            main,
            object,
            sources,
        } => Ok(compile::prepare(alloc, main, object, sources.as_slice(), files)?),
        Command::Run {
            input,
            budget,
            trace,
            object,
        } => Ok(run::prepare(alloc, input, *budget, trace, object, files)?),
        Command::Coverage {
            level,
            annotate,
            object,
            traces,
        } => {
            let product = Product::Report {
                level: *level,
                annotate: *annotate,
            };
            coverage::prepare(alloc, product, object, traces.as_slice(), files)
        }
        Command::Consolidate {
            object,
            out,
            traces,
        } => {
            let product = Product::File { name: out };
            coverage::prepare(alloc, product, object, traces.as_slice(), files)
        }
    }
}
