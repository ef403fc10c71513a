//! Identifiers, and words of a given spelling (Ada RM 2012, 2.3).

ghost use Rattle.std.specs.Prelude.{◌≡◌, ◌<◌, length, IfOk};
ghost use Rattle.expression_parser.specs.Shows.{ShowsAs, Reads};
ghost use Rattle.declaration_parser.specs.Identifiers as read;
ghost use Rattle.declaration_parser.specs.Spelling.{is_spelled};
ghost use Rattle.declaration_parser.specs.Answers.{TakesSpelled};
ghost use Rattle.declaration_parser.specs.Closing.{Closes};

use ada_lexer::Token;
use ada_syntax::Identifier;
use expression_parser::{Fault, Parsed, Parser, Symbol, behind, symbol_in, word};

/// `id {, id}`
#[tactic(auto, using(crate::proofs::WordCode::identifiers_rules))]
pub fn identifiers<'a>(parser: Parser, tokens: &'a [Token]) -> Parsed<'a, Vec<Identifier>>
    ensures reads { ShowsAs (λ v. v.items) (Reads read.identifiers_by tokens.now) result }
    ensures shorter { IfOk result (λ x. length x.1.now < length tokens.now) }
{
    let (first, mut rest) = parser.identifier(tokens)?;
    let mut identifiers = Vec::new(parser.alloc);
    identifiers.push(first)?;
    while let Some(after) = behind(Symbol::Comma, rest) {
        let (identifier, next) = parser.identifier(after)?;
        identifiers.push(identifier)?;
        rest = next;
    }
    Ok((identifiers, rest))
}

/// What was read, with a given word behind it, which is taken too.
pub fn closed_by<'a, T: Drop>(wanted: Symbol, parsed: Parsed<'a, T>) -> Parsed<'a, T>
    ensures { Closes wanted parsed.entry result }
{
    let (value, tokens) = parsed?;
    let rest = word(wanted, tokens)?;
    Ok((value, rest))
}

/// Whether a token is spelled so, case ignored.
pub fn is_spelled(spelling: &str, token: &Token) -> bool
    ensures { result ≡ is_spelled spelling.now token.now }
{
    spelling
        .as_bytes()
        .eq_ignore_ascii_case(token.text.as_slice())
}

/// Takes the identifier of a spelling, case ignored.
#[tactic(auto, using(crate::proofs::WordCode::spelled_rules))]
pub fn spelled<'a>(spelling: &str, tokens: &'a [Token]) -> Result<&'a [Token], Fault<'a>>
    ensures { TakesSpelled spelling.now tokens.now result }
{
    let Some((token, rest)) = tokens.split_first() else {
        return Err(Fault::Syntax(tokens));
    };
    if symbol_in(token.lexeme) != Symbol::Identifier {
        return Err(Fault::Syntax(tokens));
    }
    if is_spelled(spelling, token) {
        Ok(rest)
    } else {
        Err(Fault::Syntax(tokens))
    }
}
