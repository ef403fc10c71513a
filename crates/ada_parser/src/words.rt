//! Words at the end of statements.

ghost use Rattle.std.specs.Prelude.{◌≡◌, ◌<◌, length};
ghost use Rattle.ada_parser.specs.Endings.{TakesClosing, TakesEnd};

use ada_lexer::Token;
use expression_parser::{Fault, Symbol, word};

/// `END word ;`
#[tactic(auto, using(crate::proofs::Steps::closing_rules))]
pub fn closing<'a>(wanted: Symbol, tokens: &'a [Token]) -> Result<&'a [Token], Fault<'a>>
    ensures { TakesClosing wanted tokens.now result }
{
    let rest = word(Symbol::End, tokens)?;
    let rest = word(wanted, rest)?;
    word(Symbol::Semicolon, rest)
}

/// `END ;`
#[tactic(auto, using(crate::proofs::Steps::end_rules))]
pub fn end<'a>(tokens: &'a [Token]) -> Result<&'a [Token], Fault<'a>>
    ensures { TakesEnd tokens.now result }
{
    let rest = word(Symbol::End, tokens)?;
    word(Symbol::Semicolon, rest)
}
