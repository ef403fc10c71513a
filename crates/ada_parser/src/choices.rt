//! Choices of alternatives and handlers (Ada RM 2012, 3.8.1, 11.2).

ghost use Rattle.std.specs.Prelude.{◌<◌, length, IfOk};
ghost use Rattle.expression_parser.specs.Shows.{Shows, ShowsAs, Reads};
ghost use Rattle.ada_parser.specs.StatementReading as read;

use ada_lexer::Token;
use ada_syntax::{Bounds, Choice, ExceptionChoice};
use declaration_parser::paired;
use expression_parser::{Fault, Parsed, Parser, Symbol, behind, symbol_in};

/// `simple [.. simple] | OTHERS`
#[tactic(auto, using(crate::proofs::SimpleCode::choice_rules))]
fn choice<'a>(parser: Parser, tokens: &'a [Token]) -> Parsed<'a, Choice>
    ensures reads { Shows (Reads (read.choice_by parser.extent) tokens.now) result }
    ensures shorter { IfOk result (λ x. length x.1.now < length tokens.now) }
{
    let Some((token, rest)) = tokens.split_first() else {
        return Err(Fault::Syntax(tokens));
    };
    if symbol_in(token.lexeme) == Symbol::Others {
        return Ok((Choice::Others(token.pos), rest));
    }
    let (first, rest) = parser.simple(tokens)?;
    let Some(after) = behind(Symbol::DoubleDot, rest) else {
        return Ok((Choice::Value(first), rest));
    };
    let ((low, high), rest) = paired(first, parser.simple(after))?;
    Ok((Choice::Range(Bounds { low, high }), rest))
}

/// `choice {| choice}`
#[tactic(auto, using(crate::proofs::SimpleCode::choices_rules))]
pub fn choices<'a>(parser: Parser, tokens: &'a [Token]) -> Parsed<'a, Vec<Choice>>
    ensures reads { ShowsAs (λ v. v.items) (Reads (read.choices_by parser.extent) tokens.now) result }
    ensures shorter { IfOk result (λ x. length x.1.now < length tokens.now) }
{
    let (first, mut rest) = choice(parser, tokens)?;
    let mut choices = Vec::new(parser.alloc);
    choices.push(first)?;
    while let Some(after) = behind(Symbol::Bar, rest) {
        let (choice, next) = choice(parser, after)?;
        choices.push(choice)?;
        rest = next;
    }
    Ok((choices, rest))
}

/// `name | OTHERS`
#[tactic(auto, using(crate::proofs::SimpleCode::exception_rules))]
fn exception<'a>(parser: Parser, tokens: &'a [Token]) -> Parsed<'a, ExceptionChoice>
    ensures reads { Shows (Reads (read.exception_by parser.extent) tokens.now) result }
    ensures shorter { IfOk result (λ x. length x.1.now < length tokens.now) }
{
    let Some((token, rest)) = tokens.split_first() else {
        return Err(Fault::Syntax(tokens));
    };
    if symbol_in(token.lexeme) == Symbol::Others {
        return Ok((ExceptionChoice::Others(token.pos), rest));
    }
    let (name, rest) = parser.name(tokens)?;
    Ok((ExceptionChoice::Named(name), rest))
}

/// `exch {| exch}`
#[tactic(auto, using(crate::proofs::SimpleCode::exceptions_rules))]
pub fn exceptions<'a>(parser: Parser, tokens: &'a [Token]) -> Parsed<'a, Vec<ExceptionChoice>>
    ensures reads { ShowsAs (λ v. v.items) (Reads (read.exceptions_by parser.extent) tokens.now) result }
    ensures shorter { IfOk result (λ x. length x.1.now < length tokens.now) }
{
    let (first, mut rest) = exception(parser, tokens)?;
    let mut exceptions = Vec::new(parser.alloc);
    exceptions.push(first)?;
    while let Some(after) = behind(Symbol::Bar, rest) {
        let (exception, next) = exception(parser, after)?;
        exceptions.push(exception)?;
        rest = next;
    }
    Ok((exceptions, rest))
}
