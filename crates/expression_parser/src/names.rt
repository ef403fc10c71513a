//! Names and actuals (Ada RM 2012, 4.1, 6.4).

ghost use Rattle.std.specs.Prelude.{◌≡◌, ◌<◌, ◌∷◌, length, IfOk};
ghost use Rattle.ada_lexer.specs.declared.token.Token.{Token as Read};
ghost use Rattle.expression_parser.specs.declared.symbol.Symbol.TheVariants as symbol;
ghost use Rattle.expression_parser.specs.Symbols.{Is};
ghost use Rattle.expression_parser.specs.Shows.{Shows, ShowsAs, Reads, NextSuffix};
ghost use Rattle.expression_parser.specs.Depth as at;

use crate::building::applied;
use crate::extent::Extent;
use crate::fault::{Fault, Parsed};
use crate::parser::{Parser, behind};
use crate::symbol::{Symbol, symbol_in};
use ada_lexer::Token;
use ada_syntax::{Expr, Name, Suffix};

impl Parser {
    /// `id {. id | ' id | ( expr {, expr} )}`
    #[cycle(expression)]
    #[tactic(auto, using(crate::proofs::NameCode::name_rules))]
    pub fn name<'a>(self, tokens: &'a [Token]) -> Parsed<'a, Name>
        ensures reads { Shows (Reads (at.at_name self.extent) tokens.now) result }
        ensures shorter { IfOk result (λ x. length x.1.now < length tokens.now) }
    {
        let (prefix, mut rest) = self.identifier(tokens)?;
        let mut suffixes = Vec::new(self.alloc);
        while let Some((suffix, next)) = self.suffix(rest)? {
            suffixes.push(suffix)?;
            rest = next;
        }
        Ok((Name::new(prefix, suffixes), rest))
    }

    /// The identifier behind a dot.
    #[tactic(auto, using(crate::proofs::NameCode::suffix_rules))]
    fn selected<'a>(self, rest: &'a [Token]) -> Result<Option<(Suffix, &'a [Token])>, Fault<'a>>
        ensures { (t : Read) → Is symbol.Dot t → NextSuffix self.extent (t ∷ rest.now) result }
    {
        let (selector, rest) = self.identifier(rest)?;
        Ok(Some((Suffix::Selected(selector), rest)))
    }

    /// The identifier behind a tick, which is the first of these tokens.
    #[tactic(auto, using(crate::proofs::NameCode::suffix_rules))]
    fn attribute<'a>(
        self,
        tokens: &'a [Token],
        rest: &'a [Token],
    ) -> Result<Option<(Suffix, &'a [Token])>, Fault<'a>>
        ensures { (t : Read) → Is symbol.Tick t → tokens.now ≡ t ∷ rest.now → NextSuffix self.extent tokens.now result }
    {
        if !self.extent.opens(Extent::Objects) {
            return Err(Fault::Syntax(tokens));
        }
        let (attribute, rest) = self.identifier(rest)?;
        Ok(Some((Suffix::Attribute(attribute), rest)))
    }

    /// The next part of a name, where there is one.
    #[cycle(expression)]
    #[tactic(auto, using(crate::proofs::NameCode::suffix_rules))]
    fn suffix<'a>(self, tokens: &'a [Token]) -> Result<Option<(Suffix, &'a [Token])>, Fault<'a>>
        ensures { NextSuffix self.extent tokens.now result }
    {
        let Some((token, rest)) = tokens.split_first() else {
            return Ok(None);
        };
        match symbol_in(token.lexeme) {
            Symbol::Dot => self.selected(rest),
            Symbol::Tick => self.attribute(tokens, rest),
            Symbol::LeftParenthesis => applied(self.exprs(rest)),
            _ => Ok(None),
        }
    }

    /// `expr {, expr}`
    #[cycle(expression)]
    #[tactic(auto, using(crate::proofs::NameCode::exprs_rules))]
    pub fn exprs<'a>(self, tokens: &'a [Token]) -> Parsed<'a, Vec<Expr>>
        ensures reads { ShowsAs (λ v. v.items) (Reads (at.at_exprs self.extent) tokens.now) result }
        ensures shorter { IfOk result (λ x. length x.1.now < length tokens.now) }
    {
        let (first, mut rest) = self.expr(tokens)?;
        let mut exprs = Vec::new(self.alloc);
        exprs.push(first)?;
        while let Some(after) = behind(Symbol::Comma, rest) {
            let (expr, next) = self.expr(after)?;
            exprs.push(expr)?;
            rest = next;
        }
        Ok((exprs, rest))
    }
}
