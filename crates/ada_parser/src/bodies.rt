//! Bodies of subprograms (Ada RM 2012, 6.3).

ghost use Rattle.std.specs.Prelude.{◌<◌, length, IfOk};
ghost use Rattle.expression_parser.specs.Shows.{Shows, Reads};
ghost use Rattle.ada_parser.specs.UnitReading as read;
ghost use Rattle.ada_parser.specs.UnitDepth as at;
ghost use Rattle.ada_parser.specs.BodyParts.{ReadsBodyParts};

use crate::contexts::end;
use crate::statements::handled_statements;
use ada_lexer::Token;
use ada_syntax::{Declaration, HandledStatements, Identifier, Specification, SubprogramBody};
use cov_base::Seq;
use declaration_parser::{closed_by, local_declarations, paired, specification};
use expression_parser::{Parsed, Parser, Symbol};

/// `stmts [handlers] END [id] ;` behind `BEGIN`
fn statements_to_end<'a>(
    parser: Parser,
    tokens: &'a [Token],
) -> Parsed<'a, (HandledStatements, Option<Identifier>)>
    ensures reads { Shows (Reads (at.at_statements_to_end parser.extent) tokens.now) result }
    ensures shorter { IfOk result (λ x. length x.1.now < length tokens.now) }
{
    let (statements, rest) = handled_statements(parser, tokens)?;
    paired(statements, end(parser, rest))
}

/// `{ldecl} BEGIN stmts [handlers] END [id] ;` behind any specification and `IS`
fn body_parts<'a>(
    parser: Parser,
    tokens: &'a [Token],
) -> Parsed<'a, (Vec<Declaration>, (HandledStatements, Option<Identifier>))>
    ensures reads { ReadsBodyParts parser.extent tokens.now result }
    ensures shorter { IfOk result (λ x. length x.1.now < length tokens.now) }
{
    let (declarations, rest) = closed_by(Symbol::Begin, local_declarations(parser, tokens))?;
    paired(declarations, statements_to_end(parser, rest))
}

/// `{ldecl} BEGIN stmts [handlers] END [id] ;` behind a specification and `IS`
pub fn body_rest<'a>(
    parser: Parser,
    specification: Specification,
    tokens: &'a [Token],
) -> Parsed<'a, SubprogramBody>
    ensures reads { Shows (Reads (at.at_body_rest parser.extent specification) tokens.now) result }
    ensures shorter { IfOk result (λ x. length x.1.now < length tokens.now) }
{
    let ((specification, (declarations, (statements, end_name))), rest) = paired(
        specification,
        body_parts(parser, tokens),
    )?;
    let body = SubprogramBody {
        specification,
        declarations: Seq::from(declarations),
        statements,
        end_name,
    };
    Ok((body, rest))
}

/// `spec IS {ldecl} BEGIN stmts [handlers] END [id] ;`
pub fn body<'a>(parser: Parser, tokens: &'a [Token]) -> Parsed<'a, SubprogramBody>
    ensures reads { Shows (Reads (read.body_by parser.extent) tokens.now) result }
    ensures shorter { IfOk result (λ x. length x.1.now < length tokens.now) }
{
    let (specification, rest) = closed_by(Symbol::Is, specification(parser, tokens))?;
    body_rest(parser, specification, rest)
}
