//! From the words to the command that they name.

ghost use Rattle.std.specs.Prelude.{◌≡◌, map, string_bytes, IfOk};
ghost use Rattle.std.specs.List.{list_all};
ghost use Rattle.command_words.specs.Gives.{Gives};
ghost use Rattle.command_words.specs.Task.{IsWithinLimits, asked, is_short, named, task_of};
ghost use Rattle.command_words.specs.Command.{task_view};

use crate::command::{Command, Usage};
use crate::commands::{compile, consolidate, coverage, run};
use crate::limits::is_short;
use cov_base::Failure;
use std::alloc::Global;

/// The command that the words ask for. The first word is the program's name, the second the
/// command's; the others are read by `clap`.
pub fn words_of(alloc: Global, words: &[String]) -> Result<Command<'_>, Failure<Usage>>
    ensures command { Gives task_view (task_of (map string_bytes words.now)) result }
    ensures limits { IfOk result (λ command. IsWithinLimits (task_view command)) }
{
    let Some((_program, words)) = words.split_first() else {
        return Err(Failure::Fault(Usage));
    };
    if !are_short(words) {
        return Err(Failure::Fault(Usage));
    }
    asked(alloc, words)
}

/// The command that the words after the program's name ask for.
fn asked(alloc: Global, words: &[String]) -> Result<Command<'_>, Failure<Usage>>
    ensures command { Gives task_view (asked (map string_bytes words.now)) result }
    ensures limits { IfOk result (λ command. IsWithinLimits (task_view command)) }
{
    let Some(name) = words.first() else {
        return Err(Failure::Fault(Usage));
    };
    named(alloc, name.as_str(), words)
}

/// The command of that name that the words ask for. They begin with the name.
fn named<'a>(alloc: Global, name: &str, words: &'a [String]) -> Result<Command<'a>, Failure<Usage>>
    ensures command { Gives task_view (named name.now (map string_bytes words.entry.now)) result }
    ensures limits { IfOk result (λ command. IsWithinLimits (task_view command)) }
{
    match name {
        "compile" => compile(alloc, words),
        "run" => run(alloc, words),
        "coverage" => coverage(alloc, words),
        "consolidate" => consolidate(alloc, words),
        _ => Err(Failure::Fault(Usage)),
    }
}

/// Whether each word is short enough.
fn are_short(words: &[String]) -> bool
    ensures { result ≡ list_all (λ word. is_short (string_bytes word)) words.now }
{
    words.iter().all(|word| is_short(word.as_str()))
}
