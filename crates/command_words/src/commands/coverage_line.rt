//! `coverage --level=LEVEL --annotate=ANNOTATE --object=OBJECT [TRACE...]`

ghost use Rattle.std.specs.Prelude.{◌≡◌, map, codes, option_and_then, string_bytes, IfOk};
ghost use Rattle.clap.specs.Words.{app_of, first_of, found_of, rows_of};
ghost use Rattle.command_words.specs.Gives.{Gives};
ghost use Rattle.command_words.specs.Lines.{coverage_app};
ghost use Rattle.command_words.specs.Task.{IsWithinLimits, annotation_named, coverage_from, coverage_of, level_named};
ghost use Rattle.command_words.specs.Command.{task_view};

use crate::arguments::{any_names, required_option, with_argument};
use crate::command::{Command, Usage};
use crate::limits::are_few;
use crate::matches::{read, text, texts};
use clap::ArgMatches;
use cov_base::{Annotation, Failure, Level, Seq};
use std::alloc::{AllocError, Global};

/// The command that the words ask for, of which the first is `coverage`.
#[tactic(auto, unfolding(crate::specs::Task::coverage_of))]
pub fn coverage<'a>(alloc: Global, words: &'a [String]) -> Result<Command<'a>, Failure<Usage>>
    ensures command { Gives task_view (coverage_of (map string_bytes words.now)) result }
    ensures limits { IfOk result (λ command. IsWithinLimits (task_view command)) }
{
    let matches = read(coverage_line(alloc)?, words)?;
    coverage_from(alloc, &matches)
}

/// The command of what was found in its words.
fn coverage_from<'a>(alloc: Global, matches: &ArgMatches<'a>) -> Result<Command<'a>, Failure<Usage>>
    ensures command { Gives task_view (coverage_from (rows_of (found_of matches.now))) result }
    ensures limits { IfOk result (λ command. IsWithinLimits (task_view command)) }
{
    let level = level_of(matches)?;
    let annotate = annotation_of(matches)?;
    let object = text(matches, "object")?;
    let traces = texts(alloc, matches, "trace")?;
    if !are_few(traces.as_slice()) {
        return Err(Failure::Fault(Usage));
    }
    Ok(Command::Coverage {
        level,
        annotate,
        object,
        traces: Seq::from(traces),
    })
}

/// The level that was found.
fn level_of(matches: &ArgMatches<'_>) -> Result<Level, Failure<Usage>>
    ensures { Gives (λ level. level) (option_and_then level_named (first_of (codes "level") (rows_of (found_of matches.now)))) result }
{
    level_named(text(matches, "level")?)
}

/// The form that was found, in which coverage is shown.
fn annotation_of(matches: &ArgMatches<'_>) -> Result<Annotation, Failure<Usage>>
    ensures { Gives (λ form. form) (option_and_then annotation_named (first_of (codes "annotate") (rows_of (found_of matches.now)))) result }
{
    annotation_named(text(matches, "annotate")?)
}

/// The level of that name.
fn level_named(name: &str) -> Result<Level, Failure<Usage>>
    ensures { Gives (λ level. level) (level_named name.now) result }
{
    match name {
        "stmt" => Ok(Level::Stmt),
        "stmt+decision" => Ok(Level::Decision),
        "stmt+mcdc" => Ok(Level::Mcdc),
        "stmt+uc_mcdc" => Ok(Level::UcMcdc),
        _ => Err(Failure::Fault(Usage)),
    }
}

/// The form of that name in which coverage is shown.
fn annotation_named(name: &str) -> Result<Annotation, Failure<Usage>>
    ensures { Gives (λ annotation. annotation) (annotation_named name.now) result }
{
    match name {
        "report" => Ok(Annotation::Report),
        "xcov" => Ok(Annotation::Xcov),
        "json" => Ok(Annotation::Json),
        _ => Err(Failure::Fault(Usage)),
    }
}

/// The options and names of the command, as `clap` is told of them.
fn coverage_line<'a>(alloc: Global) -> Result<clap::Command<'a>, AllocError>
    ensures { IfOk result (λ line. app_of line ≡ coverage_app) }
{
    let line = clap::Command::new(alloc, "coverage").arg(required_option(alloc, "level"));
    let line = with_argument(line, required_option(alloc, "annotate"));
    let line = with_argument(line, required_option(alloc, "object"));
    with_argument(line, any_names(alloc, "trace"))
}
