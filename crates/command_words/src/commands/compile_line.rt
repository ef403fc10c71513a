//! `compile --main=MAIN -o OBJECT SOURCE...`

ghost use Rattle.std.specs.Prelude.{◌≡◌, map, string_bytes, IfOk};
ghost use Rattle.clap.specs.Words.{app_of, found_of, rows_of};
ghost use Rattle.command_words.specs.Gives.{Gives};
ghost use Rattle.command_words.specs.Lines.{compile_app};
ghost use Rattle.command_words.specs.Task.{IsWithinLimits, compile_from, compile_of};
ghost use Rattle.command_words.specs.Command.{task_view};

use crate::arguments::{output_option, required_names, required_option, with_argument};
use crate::command::{Command, Usage};
use crate::limits::are_sources;
use crate::matches::{read, text, texts};
use clap::ArgMatches;
use cov_base::{Failure, Seq};
use std::alloc::{AllocError, Global};

/// The command that the words ask for, of which the first is `compile`.
#[tactic(auto, unfolding(crate::specs::Task::compile_of))]
pub fn compile<'a>(alloc: Global, words: &'a [String]) -> Result<Command<'a>, Failure<Usage>>
    ensures command { Gives task_view (compile_of (map string_bytes words.now)) result }
    ensures limits { IfOk result (λ command. IsWithinLimits (task_view command)) }
{
    let matches = read(compile_line(alloc)?, words)?;
    compile_from(alloc, &matches)
}

/// The command of what was found in its words.
fn compile_from<'a>(alloc: Global, matches: &ArgMatches<'a>) -> Result<Command<'a>, Failure<Usage>>
    ensures command { Gives task_view (compile_from (rows_of (found_of matches.now))) result }
    ensures limits { IfOk result (λ command. IsWithinLimits (task_view command)) }
{
    let main = text(matches, "main")?;
    let object = text(matches, "object")?;
    let sources = texts(alloc, matches, "source")?;
    // A name is a word or the end of one. Each is tested once more by itself, so that the limit is known
    // of the command without a look into how the words were read.
    if !are_sources(sources.as_slice()) {
        return Err(Failure::Fault(Usage));
    }
    Ok(Command::Compile {
        main,
        object,
        sources: Seq::from(sources),
    })
}

/// The options and names of the command, as `clap` is told of them.
fn compile_line<'a>(alloc: Global) -> Result<clap::Command<'a>, AllocError>
    ensures { IfOk result (λ line. app_of line ≡ compile_app) }
{
    let line = clap::Command::new(alloc, "compile").arg(required_option(alloc, "main"));
    let line = with_argument(line, output_option(alloc, "object"));
    with_argument(line, required_names(alloc, "source"))
}
