//! `run --input=INPUT [--budget=BUDGET] -o TRACE OBJECT`

ghost use Rattle.std.specs.Prelude.{◌≡◌, map, string_bytes, IfOk};
ghost use Rattle.clap.specs.Words.{app_of, found_of, rows_of};
ghost use Rattle.command_words.specs.Gives.{Gives};
ghost use Rattle.command_words.specs.Lines.{run_app};
ghost use Rattle.command_words.specs.Task.{IsWithinLimits, run_from, run_of};
ghost use Rattle.command_words.specs.Command.{task_view};

use crate::arguments::{
    budget_option, output_option, required_name, required_option, with_argument,
};
use crate::command::{Command, Usage};
use crate::matches::{number, read, text};
use clap::ArgMatches;
use cov_base::Failure;
use std::alloc::{AllocError, Global};

/// At least so many instructions may be executed.
const LEAST_BUDGET: u32 = 1;

/// The command that the words ask for, of which the first is `run`.
#[tactic(auto, unfolding(crate::specs::Task::run_of))]
pub fn run<'a>(alloc: Global, words: &'a [String]) -> Result<Command<'a>, Failure<Usage>>
    ensures command { Gives task_view (run_of (map string_bytes words.now)) result }
    ensures limits { IfOk result (λ command. IsWithinLimits (task_view command)) }
{
    let matches = read(run_line(alloc)?, words)?;
    run_from(&matches)
}

/// The command of what was found in its words.
fn run_from<'a>(matches: &ArgMatches<'a>) -> Result<Command<'a>, Failure<Usage>>
    ensures command { Gives task_view (run_from (rows_of (found_of matches.now))) result }
    ensures limits { IfOk result (λ command. IsWithinLimits (task_view command)) }
{
    let input = text(matches, "input")?;
    let budget = number(matches, "budget")?;
    let trace = text(matches, "trace")?;
    let object = text(matches, "object")?;
    // The line takes no smaller number. It is tested once more by itself, so that the limit is known of
    // the command without a look into how the words were read.
    if budget < LEAST_BUDGET {
        return Err(Failure::Fault(Usage));
    }
    Ok(Command::Run {
        input,
        budget,
        trace,
        object,
    })
}

/// The options and names of the command, as `clap` is told of them.
fn run_line<'a>(alloc: Global) -> Result<clap::Command<'a>, AllocError>
    ensures { IfOk result (λ line. app_of line ≡ run_app) }
{
    let line = clap::Command::new(alloc, "run").arg(required_option(alloc, "input"));
    let line = with_argument(line, budget_option(alloc));
    let line = with_argument(line, output_option(alloc, "trace"));
    with_argument(line, required_name(alloc, "object"))
}
