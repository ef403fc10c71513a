//! Alternatives and handlers: choices, and the statements for them (Ada RM 2012, 5.4, 11.2).

ghost use Rattle.std.specs.Prelude.{◌<◌, ◌≤◌, length, IfOk};
ghost use Rattle.ada_syntax.specs.StatementView.{alternatives_of, handlers_of};
ghost use Rattle.expression_parser.specs.Shows.{ShowsAs, Reads};
ghost use Rattle.ada_parser.specs.StatementDepth as at;
ghost use Rattle.ada_parser.specs.Parts.{alternative_parts, handler_parts};

use crate::heads::{choices_to_arrow, exceptions_to_arrow};
use crate::statements::statements;
use ada_lexer::Token;
use ada_syntax::{Alternative, Handler};
use cov_base::Seq;
use expression_parser::{Extent, Parsed, Parser, Symbol, behind, word};

/// `choice {| choice} => stmts` behind `WHEN`
#[cycle(statement)]
fn alternative<'a>(parser: Parser, tokens: &'a [Token]) -> Parsed<'a, Alternative>
    ensures reads { ShowsAs alternative_parts (Reads (at.at_alternative parser.extent) tokens.now) result }
    ensures shorter { IfOk result (λ x. length x.1.now < length tokens.now) }
{
    let (choices, rest) = choices_to_arrow(parser, tokens)?;
    let (statements, rest) = statements(parser, rest)?;
    let choices = Seq::from(choices);
    let alternative = Alternative {
        choices,
        statements,
    };
    Ok((alternative, rest))
}

/// `alt {alt}`
#[cycle(statement)]
#[tactic(auto, using(crate::proofs::ArmCode::alternatives_rules))]
pub fn alternatives<'a>(parser: Parser, tokens: &'a [Token]) -> Parsed<'a, Vec<Alternative>>
    ensures reads { ShowsAs (λ v. alternatives_of v.items) (Reads (at.at_alternatives parser.extent) tokens.now) result }
    ensures shorter { IfOk result (λ x. length x.1.now < length tokens.now) }
{
    let rest = word(Symbol::When, tokens)?;
    let (first, mut rest) = alternative(parser, rest)?;
    let mut alternatives = Vec::new(parser.alloc);
    alternatives.push(first)?;
    while let Some(after) = behind(Symbol::When, rest) {
        let (alternative, next) = alternative(parser, after)?;
        alternatives.push(alternative)?;
        rest = next;
    }
    Ok((alternatives, rest))
}

/// `exch {| exch} => stmts` behind `WHEN`
#[cycle(statement)]
fn handler<'a>(parser: Parser, tokens: &'a [Token]) -> Parsed<'a, Handler>
    ensures reads { ShowsAs handler_parts (Reads (at.at_handler parser.extent) tokens.now) result }
    ensures shorter { IfOk result (λ x. length x.1.now < length tokens.now) }
{
    let (choices, rest) = exceptions_to_arrow(parser, tokens)?;
    let (statements, rest) = statements(parser, rest)?;
    let choices = Seq::from(choices);
    let handler = Handler {
        choices,
        statements,
    };
    Ok((handler, rest))
}

/// `handler {handler}` behind `EXCEPTION`
#[cycle(statement)]
#[tactic(auto, using(crate::proofs::ArmCode::handler_list_rules))]
fn handler_list<'a>(parser: Parser, tokens: &'a [Token]) -> Parsed<'a, Vec<Handler>>
    ensures reads { ShowsAs (λ v. handlers_of v.items) (Reads (at.at_handler_list parser.extent) tokens.now) result }
    ensures shorter { IfOk result (λ x. length x.1.now < length tokens.now) }
{
    let rest = word(Symbol::When, tokens)?;
    let (first, mut rest) = handler(parser, rest)?;
    let mut handlers = Vec::new(parser.alloc);
    handlers.push(first)?;
    while let Some(after) = behind(Symbol::When, rest) {
        let (handler, next) = handler(parser, after)?;
        handlers.push(handler)?;
        rest = next;
    }
    Ok((handlers, rest))
}

/// `[EXCEPTION handler {handler}]`. Handlers come with [`Extent::Exceptions`].
#[cycle(statement)]
#[tactic(auto, using(crate::proofs::ArmCode::handlers_rules))]
pub fn handlers<'a>(parser: Parser, tokens: &'a [Token]) -> Parsed<'a, Vec<Handler>>
    ensures reads { ShowsAs (λ v. handlers_of v.items) (Reads (at.at_handlers parser.extent) tokens.now) result }
    ensures no_longer { IfOk result (λ x. length x.1.now ≤ length tokens.now) }
{
    let Some(after) = behind(Symbol::Exception, tokens) else {
        return Ok((Vec::new(parser.alloc), tokens));
    };
    parser.needs(Extent::Exceptions, tokens)?;
    handler_list(parser, after)
}
