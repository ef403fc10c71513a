//! Initial values (Ada RM 2012, 3.3.1, 4.3.3).

ghost use Rattle.std.specs.Prelude.{◌<◌, length, [], IfOk};
ghost use Rattle.expression_parser.specs.Shows.{Shows, Reads};
ghost use Rattle.declaration_parser.specs.SubtypeReading as read;
ghost use Rattle.declaration_parser.specs.Answers.{LooksInside, initial_within, value_within};

use crate::words::closed_by;
use ada_lexer::Token;
use ada_syntax::Initial;
use cov_base::{Pos, Seq};
use expression_parser::{Extent, Parsed, Parser, Symbol, behind, symbol_in, word};

/// The place of a parenthesis before `others`, and the tokens behind that word, where both stand next.
#[tactic(auto, using(crate::proofs::ValueCode::aggregate_rules))]
fn aggregate<'a>(parser: Parser, tokens: &'a [Token]) -> Option<(Pos, &'a [Token])>
    ensures { LooksInside parser.extent tokens.now result }
{
    if !parser.extent.opens(Extent::Types) {
        return None;
    }
    let Some((token, rest)) = tokens.split_first() else {
        return None;
    };
    if symbol_in(token.lexeme) != Symbol::LeftParenthesis {
        return None;
    }
    let Some(rest) = behind(Symbol::Others, rest) else {
        return None;
    };
    Some((token.pos, rest))
}

/// `expr` in the parentheses at these places, where no further one stands before `others`
fn value<'a>(parser: Parser, others: Vec<Pos>, tokens: &'a [Token]) -> Parsed<'a, Initial>
    ensures reads { Shows (Reads (value_within parser.extent others.items) tokens.now) result }
    ensures shorter { IfOk result (λ x. length x.1.now < length tokens.now) }
{
    let (value, rest) = parser.expr(tokens)?;
    let others = Seq::from(others);
    Ok((Initial { others, value }, rest))
}

/// `expr | ( OTHERS => init )` in the parentheses at these places
#[tactic(auto, using(crate::proofs::ValueCode::within_rules))]
fn within<'a>(parser: Parser, mut others: Vec<Pos>, tokens: &'a [Token]) -> Parsed<'a, Initial>
    ensures reads { Shows (Reads (initial_within parser.extent others.items) tokens.now) result }
    ensures shorter { IfOk result (λ x. length x.1.now < length tokens.now) }
{
    let Some((pos, rest)) = aggregate(parser, tokens) else {
        return value(parser, others, tokens);
    };
    let rest = word(Symbol::Arrow, rest)?;
    others.push(pos)?;
    closed_by(Symbol::RightParenthesis, within(parser, others, rest))
}

/// `expr | ( OTHERS => init )`. The second form comes with [`Extent::Types`].
#[tactic(auto, using(crate::proofs::ValueCode::initial_rules))]
pub fn initial<'a>(parser: Parser, tokens: &'a [Token]) -> Parsed<'a, Initial>
    ensures reads { Shows (Reads (read.initial_by parser.extent) tokens.now) result }
    ensures shorter { IfOk result (λ x. length x.1.now < length tokens.now) }
{
    within(parser, Vec::new(parser.alloc), tokens)
}
