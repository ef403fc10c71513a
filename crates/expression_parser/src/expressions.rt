//! Expressions (Ada RM 2012, 4.4).

ghost use Rattle.std.specs.Prelude.{◌≡◌, ◌<◌, ◌≤◌, length, IfOk};
ghost use Rattle.ada_syntax.specs.Tree.{Expr as Expression};
ghost use Rattle.expression_parser.specs.Building.{operated, chained};
ghost use Rattle.expression_parser.specs.Shows.{Shows, ShowsAs, Reads, More};
ghost use Rattle.expression_parser.specs.Symbols.{value_of};
ghost use Rattle.expression_parser.specs.Depth as at;

use crate::building::{chain, named, parenthesized, product, relation, sum, unary};
use crate::extent::Extent;
use crate::fault::{Fault, Parsed};
use crate::operators::sign_in;
use crate::parser::Parser;
use crate::symbol::{Symbol, symbol_in};
use ada_lexer::{Lexeme, Token};
use ada_syntax::{Expr, LogicalOperator, Operand, UnaryOperator};

/// The value of a numeral.
fn value_in(lexeme: Lexeme) -> u32
    ensures { result ≡ value_of lexeme }
{
    match lexeme {
        Lexeme::Numeral(value) => value,
        _ => 0,
    }
}

impl Parser {
    /// `numeral | name | ( expr )`
    #[cycle(expression)]
    #[tactic(auto, using(crate::proofs::ExpressionCode::primary_rules))]
    fn primary<'a>(self, tokens: &'a [Token]) -> Parsed<'a, Expr>
        ensures reads { Shows (Reads (at.at_primary self.extent) tokens.now) result }
        ensures shorter { IfOk result (λ x. length x.1.now < length tokens.now) }
    {
        let Some((token, rest)) = tokens.split_first() else {
            return Err(Fault::Syntax(tokens));
        };
        match symbol_in(token.lexeme) {
            Symbol::Numeral => Ok((Expr::numeral(token.pos, value_in(token.lexeme)), rest)),
            Symbol::Identifier => {
                if !self.extent.opens(Extent::Objects) {
                    return Err(Fault::Syntax(tokens));
                }
                named(token.pos, self.name(tokens))
            }
            Symbol::LeftParenthesis => {
                if !self.extent.opens(Extent::Objects) {
                    return Err(Fault::Syntax(tokens));
                }
                parenthesized(self.alloc, token.pos, self.expr(rest))
            }
            _ => Err(Fault::Syntax(tokens)),
        }
    }

    /// `primary | ABS primary | NOT primary`
    #[cycle(expression)]
    #[tactic(auto, using(crate::proofs::ExpressionCode::factor_rules))]
    fn factor<'a>(self, tokens: &'a [Token]) -> Parsed<'a, Expr>
        ensures reads { Shows (Reads (at.at_factor self.extent) tokens.now) result }
        ensures shorter { IfOk result (λ x. length x.1.now < length tokens.now) }
    {
        let Some((token, rest)) = tokens.split_first() else {
            return Err(Fault::Syntax(tokens));
        };
        match symbol_in(token.lexeme) {
            Symbol::Abs => {
                if !self.extent.opens(Extent::Objects) {
                    return Err(Fault::Syntax(tokens));
                }
                let operand = self.primary(rest);
                unary(self.alloc, token.pos, UnaryOperator::Abs, operand)
            }
            Symbol::Not => {
                if !self.extent.opens(Extent::Decisions) {
                    return Err(Fault::Syntax(tokens));
                }
                let operand = self.primary(rest);
                unary(self.alloc, token.pos, UnaryOperator::Not, operand)
            }
            _ => self.primary(tokens),
        }
    }

    /// `factor {(* | / | MOD | REM) factor}`
    #[cycle(expression)]
    #[tactic(auto, using(crate::proofs::ExpressionCode::term_rules))]
    fn term<'a>(self, tokens: &'a [Token]) -> Parsed<'a, Expr>
        ensures reads { Shows (Reads (at.at_term self.extent) tokens.now) result }
        ensures shorter { IfOk result (λ x. length x.1.now < length tokens.now) }
    {
        let (first, rest) = self.factor(tokens)?;
        product(self.alloc, first, self.factors(rest))
    }

    /// `{(* | / | MOD | REM) factor}`, behind a first factor
    #[cycle(expression)]
    #[tactic(auto, using(crate::proofs::ExpressionCode::term_rules))]
    fn factors<'a>(self, tokens: &'a [Token]) -> Parsed<'a, Vec<Operand>>
        ensures reads { (first : Expression) → ShowsAs (operated first) (More (at.product_turns self.extent) tokens.now first) result }
        ensures shorter { IfOk result (λ x. length x.1.now ≤ length tokens.now) }
    {
        let mut others = Vec::new(self.alloc);
        let mut rest = tokens;
        while let Some((operator, after)) = self.multiplying(rest)? {
            let (operand, next) = self.factor(after)?;
            others.push(Operand { operator, operand })?;
            rest = next;
        }
        Ok((others, rest))
    }

    /// `[+ | -] term`
    #[cycle(expression)]
    #[tactic(auto, using(crate::proofs::ExpressionCode::signed_rules))]
    fn signed<'a>(self, tokens: &'a [Token]) -> Parsed<'a, Expr>
        ensures reads { Shows (Reads (at.at_signed self.extent) tokens.now) result }
        ensures shorter { IfOk result (λ x. length x.1.now < length tokens.now) }
    {
        let Some((token, rest)) = tokens.split_first() else {
            return Err(Fault::Syntax(tokens));
        };
        let Some(operator) = sign_in(symbol_in(token.lexeme)) else {
            return self.term(tokens);
        };
        if !self.extent.opens(Extent::Objects) {
            return Err(Fault::Syntax(tokens));
        }
        unary(self.alloc, token.pos, operator, self.term(rest))
    }

    /// `[+ | -] term {(+ | -) term}`, as it stands in ranges and choices too
    #[cycle(expression)]
    #[tactic(auto, using(crate::proofs::ExpressionCode::simple_rules))]
    pub fn simple<'a>(self, tokens: &'a [Token]) -> Parsed<'a, Expr>
        ensures reads { Shows (Reads (at.at_simple self.extent) tokens.now) result }
        ensures shorter { IfOk result (λ x. length x.1.now < length tokens.now) }
    {
        let (first, rest) = self.signed(tokens)?;
        sum(self.alloc, first, self.terms(rest))
    }

    /// `{(+ | -) term}`, behind a first term
    #[cycle(expression)]
    #[tactic(auto, using(crate::proofs::ExpressionCode::simple_rules))]
    fn terms<'a>(self, tokens: &'a [Token]) -> Parsed<'a, Vec<Operand>>
        ensures reads { (first : Expression) → ShowsAs (operated first) (More (at.sum_turns self.extent) tokens.now first) result }
        ensures shorter { IfOk result (λ x. length x.1.now ≤ length tokens.now) }
    {
        let mut others = Vec::new(self.alloc);
        let mut rest = tokens;
        while let Some((operator, after)) = self.adding(rest)? {
            let (operand, next) = self.term(after)?;
            others.push(Operand { operator, operand })?;
            rest = next;
        }
        Ok((others, rest))
    }

    /// `simple [(= | /= | < | <= | > | >=) simple]`
    #[cycle(expression)]
    #[tactic(auto, using(crate::proofs::ExpressionCode::relation_rules))]
    fn relation<'a>(self, tokens: &'a [Token]) -> Parsed<'a, Expr>
        ensures reads { Shows (Reads (at.at_relation self.extent) tokens.now) result }
        ensures shorter { IfOk result (λ x. length x.1.now < length tokens.now) }
    {
        let (left, rest) = self.simple(tokens)?;
        let Some((operator, after)) = self.relational(rest)? else {
            return Ok((left, rest));
        };
        relation(self.alloc, left, operator, self.simple(after))
    }

    /// The relations that an operator joins to a first one: one of them, and more behind the same
    /// operator.
    #[cycle(expression)]
    #[tactic(auto, using(crate::proofs::ExpressionCode::chain_rules))]
    fn relations<'a>(self, operator: LogicalOperator, tokens: &'a [Token]) -> Parsed<'a, Vec<Expr>>
        ensures reads { (first : Expression) → ShowsAs (chained operator first) (Reads (at.at_chain self.extent operator first) tokens.now) result }
        ensures shorter { IfOk result (λ x. length x.1.now < length tokens.now) }
    {
        let (second, mut rest) = self.relation(tokens)?;
        let mut others = Vec::new(self.alloc);
        others.push(second)?;
        while let Some(after) = self.another(operator, rest)? {
            let (relation, next) = self.relation(after)?;
            others.push(relation)?;
            rest = next;
        }
        Ok((others, rest))
    }

    /// Relations with one and the same operator between them: `and`, `and then`, `or`, `or else` or
    /// `xor`.
    #[cycle(expression)]
    #[tactic(auto, using(crate::proofs::ExpressionCode::expr_rules))]
    pub fn expr<'a>(self, tokens: &'a [Token]) -> Parsed<'a, Expr>
        ensures reads { Shows (Reads (at.at_expr self.extent) tokens.now) result }
        ensures shorter { IfOk result (λ x. length x.1.now < length tokens.now) }
    {
        let (first, rest) = self.relation(tokens)?;
        match self.logical(rest)? {
            None => Ok((first, rest)),
            Some((operator, after)) => {
                let others = self.relations(operator, after);
                chain(self.alloc, operator, first, others)
            }
        }
    }
}
