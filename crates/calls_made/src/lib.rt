//! A user's whole way as a program: real calls of [`gnatcov`] that meet what the laws on lists of calls ask of
//! them. It is an example of these laws, and shows that their premises can be had.
#![tactic(auto)]

ghost use Rattle.std.specs.Prelude.{◌≡◌, map, string_bytes, Some, OnOk};
ghost use Rattle.cov_io.specs.MemFiles.{held_by};
ghost use Rattle.cov_io.specs.MemSink.{taken_by};
ghost use Rattle.commands.specs.Outcome.{call_of};
ghost use Rattle.commands.specs.declared.status.Status.TheVariants.{Done};
ghost use Rattle.user_calls.specs.Calls.{IsMade};
ghost use Rattle.calls_made.specs.Way.{a_call, ToldByCalls};

use cov_io::{Files, MemFiles, MemSink, Sink};
use public_call::{Status, gnatcov};
use std::alloc::Global;

/// The command words of three calls: one compiles sources, one runs their object, one asks for its coverage.
#[derive(Clone, Copy)]
pub struct Words<'a> {
    pub compile: &'a [String],
    pub run: &'a [String],
    pub coverage: &'a [String],
}

/// A call of [`gnatcov`], as the laws on lists of calls take it.
pub fn made<F: Files, S: Sink>(
    alloc: Global,
    words: &[String],
    files: &mut F,
    out: &mut S,
) -> Status
    ensures { IsMade (a_call (map string_bytes words.now)
        (call_of F.held F.reads_failed F.writes_failed S.written S.failures files.old files.new out.old out.new)
        result) }
{
    gnatcov(alloc, words, files, out)
}

/// Goes on where a call is done, and else answers its status.
fn done(status: Status) -> Result<(), Status>
    ensures { OnOk result (status ≡ Done) }
{
    match status {
        Status::Done => Ok(()),
        other => Err(other),
    }
}

/// Makes the three calls one after another, as long as they are done. What the two first put goes to `log`, and the
/// coverage to `out`: it tells the sources' own executions on the input.
pub fn covered<F: Files, S: Sink>(
    alloc: Global,
    words: Words<'_>,
    files: &mut F,
    log: &mut S,
    out: &mut S,
) -> Result<(), Status>
    ensures { OnOk result (ToldByCalls (map string_bytes words.entry.compile.now) (map string_bytes words.entry.run.now)
        (map string_bytes words.entry.coverage.now) (F.held files.old) (S.written out.old) (S.written out.new)) }
{
    done(made(alloc, words.compile, files, log))?;
    done(made(alloc, words.run, files, log))?;
    done(made(alloc, words.coverage, files, out))
}

/// The same over files in memory, which tell what they hold.
pub fn covered_in_memory(
    alloc: Global,
    words: Words<'_>,
    files: &mut MemFiles,
    log: &mut MemSink,
    out: &mut MemSink,
) -> Result<(), Status>
    ensures { OnOk result (ToldByCalls (map string_bytes words.entry.compile.now) (map string_bytes words.entry.run.now)
        (map string_bytes words.entry.coverage.now) (Some (held_by files.old)) (Some (taken_by out.old))
        (Some (taken_by out.new))) }
{
    covered(alloc, words, files, log, out)
}
