//! Context clauses, and the ends of units (Ada RM 2012, 6.3, 10.1.2).

ghost use Rattle.std.specs.Prelude.{◌<◌, ◌≤◌, length, IfOk};
ghost use Rattle.expression_parser.specs.Shows.{Shows, ShowsAs, Reads};
ghost use Rattle.ada_parser.specs.UnitReading as read;
ghost use Rattle.ada_parser.specs.UnitDepth as at;

use ada_lexer::Token;
use ada_syntax::{Identifier, WithClause};
use cov_base::Seq;
use declaration_parser::{closed_by, identifiers};
use expression_parser::{Parsed, Parser, Symbol, behind, symbol_in, word};

/// `id {, id} ;` behind `WITH`
fn with_clause<'a>(parser: Parser, tokens: &'a [Token]) -> Parsed<'a, WithClause>
    ensures reads { Shows (Reads read.with_by tokens.now) result }
    ensures shorter { IfOk result (λ x. length x.1.now < length tokens.now) }
{
    let (names, rest) = closed_by(Symbol::Semicolon, identifiers(parser, tokens))?;
    let names = Seq::from(names);
    Ok((WithClause { names }, rest))
}

/// `{WITH id {, id} ;}`
#[tactic(auto, using(crate::proofs::ContextCode::withs_rules))]
pub fn withs<'a>(parser: Parser, tokens: &'a [Token]) -> Parsed<'a, Vec<WithClause>>
    ensures reads { ShowsAs (λ v. v.items) (Reads read.withs_by tokens.now) result }
    ensures no_longer { IfOk result (λ x. length x.1.now ≤ length tokens.now) }
{
    let mut rest = tokens;
    let mut withs = Vec::new(parser.alloc);
    while let Some(after) = behind(Symbol::With, rest) {
        let (clause, next) = with_clause(parser, after)?;
        withs.push(clause)?;
        rest = next;
    }
    Ok((withs, rest))
}

/// `[id]` behind `END`
#[tactic(auto, using(crate::proofs::ContextCode::end_name_rules))]
fn end_name<'a>(parser: Parser, tokens: &'a [Token]) -> Parsed<'a, Option<Identifier>>
    ensures reads { Shows (Reads at.at_end_name tokens.now) result }
    ensures no_longer { IfOk result (λ x. length x.1.now ≤ length tokens.now) }
{
    let Some((token, _)) = tokens.split_first() else {
        return Ok((None, tokens));
    };
    if symbol_in(token.lexeme) != Symbol::Identifier {
        return Ok((None, tokens));
    }
    let (name, rest) = parser.identifier(tokens)?;
    Ok((Some(name), rest))
}

/// `END [id] ;`
pub fn end<'a>(parser: Parser, tokens: &'a [Token]) -> Parsed<'a, Option<Identifier>>
    ensures reads { Shows (Reads at.at_end tokens.now) result }
    ensures shorter { IfOk result (λ x. length x.1.now < length tokens.now) }
{
    let rest = word(Symbol::End, tokens)?;
    closed_by(Symbol::Semicolon, end_name(parser, rest))
}
