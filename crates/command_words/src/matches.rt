//! What `clap` finds in the words of a command, read with this crate's one fault.

ghost use Rattle.std.specs.Prelude.{◌≡◌, true, map, option_and_then, string_bytes, unwrap_or, [], IfOk};
ghost use Rattle.clap.specs.Words.{all_of, app_of, first_of, found_of, is_simple_and_free, one_of, rows_of};
ghost use Rattle.command_words.specs.Gives.{Gives, failure_of};
ghost use Rattle.command_words.specs.Lines.{given, number_of};

use crate::command::Usage;
use clap::ArgMatches;
use clap::error::ErrorKind;
use cov_base::Failure;
use std::alloc::{AllocError, Global};

/// The failure of words in which an error of this kind was found: want of memory is told as itself, and whatever
/// else was found, or asked for, is this crate's one fault.
fn failure_of(kind: ErrorKind) -> Failure<Usage>
    ensures { result ≡ failure_of kind }
{
    match kind {
        ErrorKind::OutOfMemory => Failure::WantOfMemory,
        _ => Failure::Fault(Usage),
    }
}

/// What `line` finds in the words, of which the first is the command's name. Where it finds a fault,
/// or is asked for help, the words are no command.
pub fn read<'a>(
    line: clap::Command<'a>,
    words: &'a [String],
) -> Result<ArgMatches<'a>, Failure<Usage>>
    requires { is_simple_and_free (app_of line) ≡ true }
    ensures { Gives (λ matches. rows_of (found_of matches)) (given (app_of line.entry) (map string_bytes words.now)) result }
{
    match line.try_get_matches_from(words) {
        Ok(matches) => Ok(matches),
        Err(error) => Err(failure_of(error.kind())),
    }
}

/// The first value of an argument. Where it has none, the words are no command.
pub fn text<'a>(matches: &ArgMatches<'a>, id: &str) -> Result<&'a str, Failure<Usage>>
    ensures { Gives (λ value. value.now) (first_of id.now (rows_of (found_of matches.now))) result }
{
    matches.get_str(id).ok_or(Failure::Fault(Usage))
}

/// The number that the first value of an argument spells. Where it has none, or no number below
/// 2^32, the words are no command.
pub fn number(matches: &ArgMatches<'_>, id: &str) -> Result<u32, Failure<Usage>>
    ensures { Gives (λ value. value) (option_and_then number_of (one_of id.now (rows_of (found_of matches.now)))) result }
{
    matches.get_one::<u32>(id).ok_or(Failure::Fault(Usage))
}

/// All values of an argument, in order; none where it has none.
pub fn texts<'a>(
    alloc: Global,
    matches: &ArgMatches<'a>,
    id: &str,
) -> Result<Vec<&'a str>, AllocError>
    ensures { IfOk result (λ values. map (λ value. value.now) values.items ≡ unwrap_or (all_of id.now (rows_of (found_of matches.now))) []) }
{
    match matches.get_raw(id) {
        Some(values) => Vec::from_slice(alloc, values),
        None => Ok(Vec::new(alloc)),
    }
}
