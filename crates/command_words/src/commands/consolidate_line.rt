//! `consolidate --object=OBJECT -o OUT [TRACE...]`

ghost use Rattle.std.specs.Prelude.{◌≡◌, map, string_bytes, IfOk};
ghost use Rattle.clap.specs.Words.{app_of, found_of, rows_of};
ghost use Rattle.command_words.specs.Gives.{Gives};
ghost use Rattle.command_words.specs.Lines.{consolidate_app};
ghost use Rattle.command_words.specs.Task.{IsWithinLimits, consolidate_from, consolidate_of};
ghost use Rattle.command_words.specs.Command.{task_view};

use crate::arguments::{any_names, output_option, required_option, with_argument};
use crate::command::{Command, Usage};
use crate::limits::are_few;
use crate::matches::{read, text, texts};
use clap::ArgMatches;
use cov_base::{Failure, Seq};
use std::alloc::{AllocError, Global};

/// The command that the words ask for, of which the first is `consolidate`.
#[tactic(auto, unfolding(crate::specs::Task::consolidate_of))]
pub fn consolidate<'a>(alloc: Global, words: &'a [String]) -> Result<Command<'a>, Failure<Usage>>
    ensures command { Gives task_view (consolidate_of (map string_bytes words.now)) result }
    ensures limits { IfOk result (λ command. IsWithinLimits (task_view command)) }
{
    let matches = read(consolidate_line(alloc)?, words)?;
    consolidate_from(alloc, &matches)
}

/// The command of what was found in its words.
fn consolidate_from<'a>(
    alloc: Global,
    matches: &ArgMatches<'a>,
) -> Result<Command<'a>, Failure<Usage>>
    ensures command { Gives task_view (consolidate_from (rows_of (found_of matches.now))) result }
    ensures limits { IfOk result (λ command. IsWithinLimits (task_view command)) }
{
    let object = text(matches, "object")?;
    let out = text(matches, "out")?;
    let traces = texts(alloc, matches, "trace")?;
    if !are_few(traces.as_slice()) {
        return Err(Failure::Fault(Usage));
    }
    Ok(Command::Consolidate {
        object,
        out,
        traces: Seq::from(traces),
    })
}

/// The options and names of the command, as `clap` is told of them.
fn consolidate_line<'a>(alloc: Global) -> Result<clap::Command<'a>, AllocError>
    ensures { IfOk result (λ line. app_of line ≡ consolidate_app) }
{
    let line = clap::Command::new(alloc, "consolidate").arg(required_option(alloc, "object"));
    let line = with_argument(line, output_option(alloc, "out"));
    with_argument(line, any_names(alloc, "trace"))
}
