//! Statements without statements in them (Ada RM 2012, 5.1, 5.2, 5.7, 6.4, 6.5, 11.3).

ghost use Rattle.std.specs.Prelude.{◌≡◌, ◌<◌, ◌≤◌, length, IfOk};
ghost use Rattle.expression_parser.specs.Reading.{Got};
ghost use Rattle.expression_parser.specs.Shows.{Shows, Reads};
ghost use Rattle.ada_parser.specs.StatementReading as read;
ghost use Rattle.ada_parser.specs.StatementDepth as at;
ghost use Rattle.ada_parser.specs.SimpleReading.{at_simple, ReadsNameRest};

use ada_lexer::Token;
use ada_syntax::{Direction, Expr, Initial, Name, Statement, StatementKind};
use cov_base::Pos;
use declaration_parser::{closed_by, exemption_pragma, initial, paired};
use expression_parser::{Extent, Fault, Parsed, Parser, Symbol, behind, symbol_in};

/// `:= init ; | ;` behind a name: what is assigned to it, if it is no call. Assignments come with
/// [`Extent::Objects`].
fn name_rest<'a>(parser: Parser, tokens: &'a [Token]) -> Parsed<'a, Option<Initial>>
    ensures reads { ReadsNameRest parser.extent tokens.now result }
    ensures shorter { IfOk result (λ x. length x.1.now < length tokens.now) }
{
    if let Some(after) = behind(Symbol::Becomes, tokens) {
        if !parser.extent.opens(Extent::Objects) {
            return Err(Fault::Syntax(tokens));
        }
        let (value, rest) = closed_by(Symbol::Semicolon, initial(parser, after))?;
        return Ok((Some(value), rest));
    }
    closed_by(Symbol::Semicolon, Ok((None, tokens)))
}

/// `name := init ; | name ;`
fn named<'a>(parser: Parser, pos: Pos, tokens: &'a [Token]) -> Parsed<'a, Statement>
    ensures reads { Shows (Reads (at.at_named parser.extent pos) tokens.now) result }
    ensures shorter { IfOk result (λ x. length x.1.now < length tokens.now) }
{
    let (first, rest) = parser.name(tokens)?;
    let ((name, value), rest) = paired(first, name_rest(parser, rest))?;
    match value {
        Some(value) => {
            let kind = StatementKind::Assignment(name, value);
            Ok((Statement { pos, kind }, rest))
        }
        None => {
            let kind = StatementKind::Call(name);
            Ok((Statement { pos, kind }, rest))
        }
    }
}

/// `NULL ;`, behind `NULL`
fn null<'a>(pos: Pos, tokens: &'a [Token]) -> Parsed<'a, Statement>
    ensures reads { Shows (Reads (at.at_null pos) tokens.now) result }
    ensures shorter { IfOk result (λ x. length x.1.now < length tokens.now) }
{
    let kind = StatementKind::Null;
    closed_by(Symbol::Semicolon, Ok((Statement { pos, kind }, tokens)))
}

/// A pragma.
#[tactic(auto, using(crate::proofs::SimpleCode::pragma_rules))]
fn exemption<'a>(parser: Parser, pos: Pos, tokens: &'a [Token]) -> Parsed<'a, Statement>
    ensures reads { Shows (Reads (at.at_exemption parser.extent pos) tokens.now) result }
    ensures shorter { IfOk result (λ x. length x.1.now < length tokens.now) }
{
    let (exemption, rest) = exemption_pragma(parser, tokens)?;
    let kind = StatementKind::Pragma(exemption);
    Ok((Statement { pos, kind }, rest))
}

/// `[WHEN expr]`
#[tactic(auto, using(crate::proofs::SimpleCode::condition_rules))]
fn condition<'a>(parser: Parser, tokens: &'a [Token]) -> Parsed<'a, Option<Expr>>
    ensures reads { Shows (Reads (read.condition_by parser.extent) tokens.now) result }
    ensures no_longer { IfOk result (λ x. length x.1.now ≤ length tokens.now) }
{
    let Some(after) = behind(Symbol::When, tokens) else {
        return Ok((None, tokens));
    };
    let (condition, rest) = parser.expr(after)?;
    Ok((Some(condition), rest))
}

/// `[WHEN expr] ;` behind `EXIT`
fn exit<'a>(parser: Parser, pos: Pos, tokens: &'a [Token]) -> Parsed<'a, Statement>
    ensures reads { Shows (Reads (at.at_exit parser.extent pos) tokens.now) result }
    ensures shorter { IfOk result (λ x. length x.1.now < length tokens.now) }
{
    let (condition, rest) = closed_by(Symbol::Semicolon, condition(parser, tokens))?;
    let kind = StatementKind::Exit(condition);
    Ok((Statement { pos, kind }, rest))
}

/// `[expr]` before a semicolon. Results come with [`Extent::Subprograms`].
#[tactic(auto, using(crate::proofs::SimpleCode::result_rules))]
fn result_value<'a>(parser: Parser, tokens: &'a [Token]) -> Parsed<'a, Option<Expr>>
    ensures reads { Shows (Reads (read.result_by parser.extent) tokens.now) result }
    ensures no_longer { IfOk result (λ x. length x.1.now ≤ length tokens.now) }
{
    let Some((token, _)) = tokens.split_first() else {
        return Ok((None, tokens));
    };
    if symbol_in(token.lexeme) == Symbol::Semicolon {
        return Ok((None, tokens));
    }
    if !parser.extent.opens(Extent::Subprograms) {
        return Err(Fault::Syntax(tokens));
    }
    let (value, rest) = parser.expr(tokens)?;
    Ok((Some(value), rest))
}

/// `[expr] ;` behind `RETURN`
fn returns<'a>(parser: Parser, pos: Pos, tokens: &'a [Token]) -> Parsed<'a, Statement>
    ensures reads { Shows (Reads (at.at_return parser.extent pos) tokens.now) result }
    ensures shorter { IfOk result (λ x. length x.1.now < length tokens.now) }
{
    let (value, rest) = closed_by(Symbol::Semicolon, result_value(parser, tokens))?;
    let kind = StatementKind::Return(value);
    Ok((Statement { pos, kind }, rest))
}

/// `[name]` before a semicolon
#[tactic(auto, using(crate::proofs::SimpleCode::raised_rules))]
fn raised<'a>(parser: Parser, tokens: &'a [Token]) -> Parsed<'a, Option<Name>>
    ensures reads { Shows (Reads (read.raised_by parser.extent) tokens.now) result }
    ensures no_longer { IfOk result (λ x. length x.1.now ≤ length tokens.now) }
{
    let Some((token, _)) = tokens.split_first() else {
        return Ok((None, tokens));
    };
    if symbol_in(token.lexeme) == Symbol::Semicolon {
        return Ok((None, tokens));
    }
    let (name, rest) = parser.name(tokens)?;
    Ok((Some(name), rest))
}

/// `[name] ;` behind `RAISE`
fn raise<'a>(parser: Parser, pos: Pos, tokens: &'a [Token]) -> Parsed<'a, Statement>
    ensures reads { Shows (Reads (at.at_raise parser.extent pos) tokens.now) result }
    ensures shorter { IfOk result (λ x. length x.1.now < length tokens.now) }
{
    let (name, rest) = closed_by(Symbol::Semicolon, raised(parser, tokens))?;
    let kind = StatementKind::Raise(name);
    Ok((Statement { pos, kind }, rest))
}

/// A statement without statements in it. `exit` comes with [`Extent::Decisions`], `raise` with
/// [`Extent::Exceptions`].
#[tactic(auto, using(crate::proofs::SimpleStatementCode::simple_rules))]
pub fn simple<'a>(parser: Parser, tokens: &'a [Token]) -> Parsed<'a, Statement>
    ensures reads { Shows (Reads (at_simple parser.extent) tokens.now) result }
    ensures shorter { IfOk result (λ x. length x.1.now < length tokens.now) }
{
    let Some((token, rest)) = tokens.split_first() else {
        return Err(Fault::Syntax(tokens));
    };
    let pos = token.pos;
    match symbol_in(token.lexeme) {
        Symbol::Null => null(pos, rest),
        Symbol::Identifier => named(parser, pos, tokens),
        Symbol::Pragma => exemption(parser, pos, tokens),
        Symbol::Exit => {
            if !parser.extent.opens(Extent::Decisions) {
                return Err(Fault::Syntax(tokens));
            }
            exit(parser, pos, rest)
        }
        Symbol::Return => returns(parser, pos, rest),
        Symbol::Raise => {
            if !parser.extent.opens(Extent::Exceptions) {
                return Err(Fault::Syntax(tokens));
            }
            raise(parser, pos, rest)
        }
        _ => Err(Fault::Syntax(tokens)),
    }
}

/// `[REVERSE]`
#[tactic(auto, using(crate::proofs::SimpleCode::direction_rules))]
pub fn direction(tokens: &[Token]) -> (Direction, &[Token])
    ensures reads { read.direction_by tokens.now ≡ Got result.0 result.1.now }
    ensures no_longer { length result.1.now ≤ length tokens.now }
{
    match behind(Symbol::Reverse, tokens) {
        Some(rest) => (Direction::Reverse, rest),
        None => (Direction::Forward, tokens),
    }
}
