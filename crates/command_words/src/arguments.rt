//! The arguments of command lines, as `clap` is told of them.

ghost use Rattle.std.specs.Prelude.{◌≡◌, false, IfOk};
ghost use Rattle.clap.specs.Words.{App, app_of, rule_of, with_rule};
ghost use Rattle.command_words.specs.Lines.{any_names, budget_option, output_option, required_name, required_names, required_option};

use clap::{Arg, ArgAction};
use std::alloc::{AllocError, Global};

/// The option `--NAME`, which has to be given.
pub fn required_option<'a>(alloc: Global, name: &'a str) -> Arg<'a>
    ensures rule { rule_of result ≡ required_option name.entry.now }
    ensures local { result.global ≡ false }
{
    Arg::new(alloc, name).long(name).required(true)
}

/// The option `-o`, which has to be given, found under this name.
pub fn output_option<'a>(alloc: Global, id: &'a str) -> Arg<'a>
    ensures rule { rule_of result ≡ output_option id.entry.now }
    ensures local { result.global ≡ false }
{
    Arg::new(alloc, id).short('o').required(true)
}

/// A name without an option, which has to be given.
pub fn required_name<'a>(alloc: Global, id: &'a str) -> Arg<'a>
    ensures rule { rule_of result ≡ required_name id.entry.now }
    ensures local { result.global ≡ false }
{
    Arg::new(alloc, id).required(true)
}

/// Names without an option, one or more.
pub fn required_names<'a>(alloc: Global, id: &'a str) -> Arg<'a>
    ensures rule { rule_of result ≡ required_names id.entry.now }
    ensures local { result.global ≡ false }
{
    Arg::new(alloc, id).action(ArgAction::Append).required(true)
}

/// Names without an option, none or more.
pub fn any_names<'a>(alloc: Global, id: &'a str) -> Arg<'a>
    ensures rule { rule_of result ≡ any_names id.entry.now }
    ensures local { result.global ≡ false }
{
    Arg::new(alloc, id).action(ArgAction::Append)
}

/// `--budget`: a number from 1 to 4294967295, by default 100000000.
pub fn budget_option<'a>(alloc: Global) -> Arg<'a>
    ensures rule { rule_of result ≡ budget_option }
    ensures local { result.global ≡ false }
{
    let budgets = clap::value_parser!(u32).range(1..);
    Arg::new(alloc, "budget")
        .long("budget")
        .default_value("100000000")
        .value_parser(budgets)
}

/// A line with one more argument, where there is a line.
pub fn with_argument<'a>(
    line: Result<clap::Command<'a>, AllocError>,
    argument: Arg<'a>,
) -> Result<clap::Command<'a>, AllocError>
    requires { argument.global ≡ false }
    ensures { (app : App) → IfOk line.entry (λ line. app_of line ≡ app)
        → IfOk result (λ line. app_of line ≡ with_rule app (rule_of argument.entry)) }
{
    line?.arg(argument)
}
