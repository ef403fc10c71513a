//! Parts without statements in them, each with the word behind it (Ada RM 2012, 5.3, 5.4, 5.6, 11.2).

ghost use Rattle.std.specs.Prelude.{◌<◌, length, IfOk};
ghost use Rattle.expression_parser.specs.declared.symbol.Symbol.TheVariants as symbol;
ghost use Rattle.expression_parser.specs.Depth.{at_expr};
ghost use Rattle.expression_parser.specs.Shows.{Shows, ShowsAs, Reads};
ghost use Rattle.declaration_parser.specs.DeclarationReading.{declarations_by};
ghost use Rattle.ada_parser.specs.Lists.{before};
ghost use Rattle.ada_parser.specs.StatementReading as read;

use crate::choices::{choices, exceptions};
use ada_lexer::Token;
use ada_syntax::{Choice, Declaration, ExceptionChoice, Expr};
use declaration_parser::{closed_by, local_declarations};
use expression_parser::{Parsed, Parser, Symbol};

/// `expr` and this word
pub fn expr_before<'a>(parser: Parser, wanted: Symbol, tokens: &'a [Token]) -> Parsed<'a, Expr>
    ensures reads { Shows (Reads (before wanted (at_expr parser.extent)) tokens.now) result }
    ensures shorter { IfOk result (λ x. length x.1.now < length tokens.now) }
{
    closed_by(wanted, parser.expr(tokens))
}

/// `choice {| choice} =>`
pub fn choices_to_arrow<'a>(parser: Parser, tokens: &'a [Token]) -> Parsed<'a, Vec<Choice>>
    ensures reads { ShowsAs (λ v. v.items) (Reads (before symbol.Arrow (read.choices_by parser.extent)) tokens.now) result }
    ensures shorter { IfOk result (λ x. length x.1.now < length tokens.now) }
{
    closed_by(Symbol::Arrow, choices(parser, tokens))
}

/// `exch {| exch} =>`
pub fn exceptions_to_arrow<'a>(
    parser: Parser,
    tokens: &'a [Token],
) -> Parsed<'a, Vec<ExceptionChoice>>
    ensures reads { ShowsAs (λ v. v.items) (Reads (before symbol.Arrow (read.exceptions_by parser.extent)) tokens.now) result }
    ensures shorter { IfOk result (λ x. length x.1.now < length tokens.now) }
{
    closed_by(Symbol::Arrow, exceptions(parser, tokens))
}

/// `{ldecl} BEGIN`
pub fn declarations_to_begin<'a>(
    parser: Parser,
    tokens: &'a [Token],
) -> Parsed<'a, Vec<Declaration>>
    ensures reads { ShowsAs (λ v. v.items) (Reads (before symbol.Begin (declarations_by parser.extent)) tokens.now) result }
    ensures shorter { IfOk result (λ x. length x.1.now < length tokens.now) }
{
    closed_by(Symbol::Begin, local_declarations(parser, tokens))
}
