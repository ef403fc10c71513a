//! Operators (Ada RM 2012, 4.5).

ghost use Rattle.std.specs.Prelude.{◌≡◌, option_map};
ghost use Rattle.expression_parser.specs.declared.extent.Extent.TheVariants.{Objects, Decisions};
ghost use Rattle.expression_parser.specs.Symbols.{
  sign_of,
  multiplying,
  adding,
  relational_of,
  first_word,
  second_word_of,
};
ghost use Rattle.expression_parser.specs.Shows.{after};
ghost use Rattle.expression_parser.specs.Operators.{Finds, FindsOperator, FindsJoint, FindsChain, behind_operator, extent_of, joining, paired};

use crate::extent::Extent;
use crate::fault::Fault;
use crate::parser::{Parser, behind, word};
use crate::symbol::{Symbol, symbol_in};
use ada_lexer::Token;
use ada_syntax::{BinaryOperator, LogicalOperator, RelationalOperator, UnaryOperator};

/// `+` and `-` before a term.
pub fn sign_in(symbol: Symbol) -> Option<UnaryOperator>
    ensures { result ≡ sign_of symbol }
{
    match symbol {
        Symbol::Plus => Some(UnaryOperator::Plus),
        Symbol::Minus => Some(UnaryOperator::Minus),
        _ => None,
    }
}

/// `* / mod rem`
fn multiplying_in(symbol: Symbol) -> Option<BinaryOperator>
    ensures { result ≡ multiplying symbol }
{
    match symbol {
        Symbol::Star => Some(BinaryOperator::Multiply),
        Symbol::Slash => Some(BinaryOperator::Divide),
        Symbol::Mod => Some(BinaryOperator::Mod),
        Symbol::Rem => Some(BinaryOperator::Rem),
        _ => None,
    }
}

/// `+` and `-` between terms.
fn adding_in(symbol: Symbol) -> Option<BinaryOperator>
    ensures { result ≡ adding symbol }
{
    match symbol {
        Symbol::Plus => Some(BinaryOperator::Add),
        Symbol::Minus => Some(BinaryOperator::Subtract),
        _ => None,
    }
}

/// `= /= < <= > >=`
fn relational_in(symbol: Symbol) -> Option<RelationalOperator>
    ensures { result ≡ relational_of symbol }
{
    match symbol {
        Symbol::Equal => Some(RelationalOperator::Equal),
        Symbol::NotEqual => Some(RelationalOperator::NotEqual),
        Symbol::Less => Some(RelationalOperator::Less),
        Symbol::LessOrEqual => Some(RelationalOperator::LessOrEqual),
        Symbol::Greater => Some(RelationalOperator::Greater),
        Symbol::GreaterOrEqual => Some(RelationalOperator::GreaterOrEqual),
        _ => None,
    }
}

/// The first word of an operator that joins relations.
fn first_word_in(operator: LogicalOperator) -> Symbol
    ensures { result ≡ first_word operator }
{
    match operator {
        LogicalOperator::And | LogicalOperator::AndThen => Symbol::And,
        LogicalOperator::Or | LogicalOperator::OrElse => Symbol::Or,
        LogicalOperator::Xor => Symbol::Xor,
    }
}

/// The second word of such an operator, where it has two.
fn second_word_in(operator: LogicalOperator) -> Option<Symbol>
    ensures { result ≡ second_word_of operator }
{
    match operator {
        LogicalOperator::And | LogicalOperator::Or | LogicalOperator::Xor => None,
        LogicalOperator::AndThen => Some(Symbol::Then),
        LogicalOperator::OrElse => Some(Symbol::Else),
    }
}

/// The operator of one word, or of two where the second one stands next, and the tokens behind it.
fn paired<'a>(
    second: Symbol,
    pair: LogicalOperator,
    alone: LogicalOperator,
    tokens: &'a [Token],
) -> (LogicalOperator, &'a [Token])
    ensures { behind_operator result ≡ paired pair alone tokens.now (after second tokens.now) }
{
    match behind(second, tokens) {
        Some(rest) => (pair, rest),
        None => (alone, tokens),
    }
}

/// The operator that joins relations and begins with this symbol, if one does, and the tokens behind
/// it. These tokens stand behind the symbol.
fn joining<'a>(symbol: Symbol, tokens: &'a [Token]) -> Option<(LogicalOperator, &'a [Token])>
    ensures { option_map behind_operator result ≡ joining symbol tokens.now }
{
    match symbol {
        Symbol::And => Some(paired(
            Symbol::Then,
            LogicalOperator::AndThen,
            LogicalOperator::And,
            tokens,
        )),
        Symbol::Or => Some(paired(
            Symbol::Else,
            LogicalOperator::OrElse,
            LogicalOperator::Or,
            tokens,
        )),
        Symbol::Xor => Some((LogicalOperator::Xor, tokens)),
        _ => None,
    }
}

/// The extent that an operator which joins relations comes with.
fn extent_of(operator: LogicalOperator) -> Extent
    ensures { result ≡ extent_of operator }
{
    match operator {
        LogicalOperator::And | LogicalOperator::Or | LogicalOperator::Xor => Extent::Decisions,
        LogicalOperator::AndThen | LogicalOperator::OrElse => Extent::ShortCircuit,
    }
}

impl Parser {
    /// The operator that the first of these tokens is, if it is one, and the tokens behind it. It comes
    /// with `needed`.
    fn found<'a, A: Copy>(
        self,
        operator: Option<A>,
        needed: Extent,
        tokens: &'a [Token],
        rest: &'a [Token],
    ) -> Result<Option<(A, &'a [Token])>, Fault<'a>>
        ensures { Finds operator self.extent needed tokens.now rest.now result }
    {
        let Some(operator) = operator else {
            return Ok(None);
        };
        if self.extent.opens(needed) {
            Ok(Some((operator, rest)))
        } else {
            Err(Fault::Syntax(tokens))
        }
    }

    /// The multiplying operator that stands next, and the tokens behind it.
    pub fn multiplying<'a>(
        self,
        tokens: &'a [Token],
    ) -> Result<Option<(BinaryOperator, &'a [Token])>, Fault<'a>>
        ensures { FindsOperator multiplying self.extent Objects tokens.now result }
    {
        let Some((token, rest)) = tokens.split_first() else {
            return Ok(None);
        };
        let operator = multiplying_in(symbol_in(token.lexeme));
        self.found(operator, Extent::Objects, tokens, rest)
    }

    /// The adding operator that stands next, and the tokens behind it.
    pub fn adding<'a>(
        self,
        tokens: &'a [Token],
    ) -> Result<Option<(BinaryOperator, &'a [Token])>, Fault<'a>>
        ensures { FindsOperator adding self.extent Objects tokens.now result }
    {
        let Some((token, rest)) = tokens.split_first() else {
            return Ok(None);
        };
        let operator = adding_in(symbol_in(token.lexeme));
        self.found(operator, Extent::Objects, tokens, rest)
    }

    /// The relational operator that stands next, and the tokens behind it.
    pub fn relational<'a>(
        self,
        tokens: &'a [Token],
    ) -> Result<Option<(RelationalOperator, &'a [Token])>, Fault<'a>>
        ensures { FindsOperator relational_of self.extent Decisions tokens.now result }
    {
        let Some((token, rest)) = tokens.split_first() else {
            return Ok(None);
        };
        let operator = relational_in(symbol_in(token.lexeme));
        self.found(operator, Extent::Decisions, tokens, rest)
    }

    /// The operator that joins a second relation to a first one, and the tokens behind it.
    pub fn logical<'a>(
        self,
        tokens: &'a [Token],
    ) -> Result<Option<(LogicalOperator, &'a [Token])>, Fault<'a>>
        ensures { FindsChain self.extent tokens.now result }
    {
        let Some((token, rest)) = tokens.split_first() else {
            return Ok(None);
        };
        let Some((operator, after)) = joining(symbol_in(token.lexeme), rest) else {
            return Ok(None);
        };
        if !self.extent.opens(Extent::Decisions) {
            return Err(Fault::Syntax(tokens));
        }
        if !self.extent.opens(extent_of(operator)) {
            return Err(Fault::Syntax(rest));
        }
        Ok(Some((operator, after)))
    }

    /// The tokens behind an operator that joins a further relation to those it has joined so far,
    /// where it stands next.
    #[tactic(auto, using(crate::proofs::OperatorLaws::joints))]
    pub fn another<'a>(
        self,
        operator: LogicalOperator,
        tokens: &'a [Token],
    ) -> Result<Option<&'a [Token]>, Fault<'a>>
        ensures { FindsJoint self.extent operator tokens.now result }
    {
        let Some(rest) = behind(first_word_in(operator), tokens) else {
            return Ok(None);
        };
        let Some(second) = second_word_in(operator) else {
            return Ok(Some(rest));
        };
        let rest = word(second, rest)?;
        Ok(Some(rest))
    }
}
