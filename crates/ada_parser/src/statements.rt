//! Statements, and sequences of them (Ada RM 2012, 5.1, 11.2).

ghost use Rattle.std.specs.Prelude.{◌≡◌, ◌<◌, length, IfOk};
ghost use Rattle.expression_parser.specs.Shows.{Shows, ShowsAs, Reads, next_is};
ghost use Rattle.ada_parser.specs.StatementReading as read;
ghost use Rattle.ada_parser.specs.StatementDepth as at;

use crate::arms::handlers;
use crate::compound::{begins_compound, compound};
use crate::simple::simple;
use ada_lexer::Token;
use ada_syntax::{HandledStatements, Statement};
use expression_parser::{Parsed, Parser, Symbol, symbol_in};

/// Whether the next token begins a statement.
fn begins_statement(tokens: &[Token]) -> bool
    ensures { result ≡ next_is read.begins_statement tokens.now }
{
    let Some((token, _)) = tokens.split_first() else {
        return false;
    };
    matches!(
        symbol_in(token.lexeme),
        Symbol::Null
            | Symbol::Identifier
            | Symbol::Pragma
            | Symbol::If
            | Symbol::Case
            | Symbol::Loop
            | Symbol::While
            | Symbol::For
            | Symbol::Exit
            | Symbol::Return
            | Symbol::Raise
            | Symbol::Begin
            | Symbol::Declare
    )
}

/// A statement.
#[cycle(statement)]
fn statement<'a>(parser: Parser, tokens: &'a [Token]) -> Parsed<'a, Statement>
    ensures reads { Shows (Reads (at.at_statement parser.extent) tokens.now) result }
    ensures shorter { IfOk result (λ x. length x.1.now < length tokens.now) }
{
    if begins_compound(tokens) {
        return compound(parser, tokens);
    }
    simple(parser, tokens)
}

/// `stmt {stmt}`
#[cycle(statement)]
#[tactic(auto, using(crate::proofs::StatementCode::statements_rules))]
pub fn statements<'a>(parser: Parser, tokens: &'a [Token]) -> Parsed<'a, Vec<Statement>>
    ensures reads { ShowsAs (λ v. v.items) (Reads (at.at_statements parser.extent) tokens.now) result }
    ensures shorter { IfOk result (λ x. length x.1.now < length tokens.now) }
{
    let (first, mut rest) = statement(parser, tokens)?;
    let mut statements = Vec::new(parser.alloc);
    statements.push(first)?;
    'rest: while begins_statement(rest) {
        let (statement, next) = statement(parser, rest)?;
        statements.push(statement)?;
        rest = next;
    }
    Ok((statements, rest))
}

/// `stmts [handlers]`
#[cycle(statement)]
pub fn handled<'a>(parser: Parser, tokens: &'a [Token]) -> Parsed<'a, HandledStatements>
    ensures reads { Shows (Reads (at.at_handled parser.extent) tokens.now) result }
    ensures shorter { IfOk result (λ x. length x.1.now < length tokens.now) }
{
    let (statements, rest) = statements(parser, tokens)?;
    let (handlers, rest) = handlers(parser, rest)?;
    let handled = HandledStatements {
        statements,
        handlers,
    };
    Ok((handled, rest))
}

/// `stmts [handlers]` behind `BEGIN`
pub fn handled_statements<'a>(parser: Parser, tokens: &'a [Token]) -> Parsed<'a, HandledStatements>
    ensures reads { Shows (Reads (at.at_handled parser.extent) tokens.now) result }
    ensures shorter { IfOk result (λ x. length x.1.now < length tokens.now) }
{
    handled(parser, tokens)
}
