//! The pragmas by which lines are exempted from coverage (Ada RM 2012, 2.8).

ghost use Rattle.std.specs.Prelude.{◌<◌, length, IfOk};
ghost use Rattle.expression_parser.specs.Shows.{Shows, Reads};
ghost use Rattle.declaration_parser.specs.Answers.{TakesText};
ghost use Rattle.declaration_parser.specs.DeclarationReading as read;

use crate::words::{closed_by, is_spelled, spelled};
use ada_lexer::Token;
use ada_syntax::Pragma;
use cov_base::Bytes;
use expression_parser::{Extent, Fault, Parsed, Parser, Symbol, behind, symbol_in, word};

/// Takes a string literal, as it is spelled.
fn literal<'a>(parser: Parser, tokens: &'a [Token]) -> Parsed<'a, Bytes>
    ensures { TakesText tokens.now result }
{
    let Some((token, rest)) = tokens.split_first() else {
        return Err(Fault::Syntax(tokens));
    };
    if symbol_in(token.lexeme) != Symbol::Text {
        return Err(Fault::Syntax(tokens));
    }
    let text = Vec::from_slice(parser.alloc, token.text.as_slice())?;
    Ok((Bytes::from(text), rest))
}

/// `, string ) ;` behind `Exempt_On`
fn exempt_on<'a>(parser: Parser, tokens: &'a [Token]) -> Parsed<'a, Pragma>
    ensures reads { Shows (Reads (λ m. read.on_by) tokens.now) result }
    ensures shorter { IfOk result (λ x. length x.1.now < length tokens.now) }
{
    let rest = word(Symbol::Comma, tokens)?;
    let text = closed_by(Symbol::RightParenthesis, literal(parser, rest));
    let (text, rest) = closed_by(Symbol::Semicolon, text)?;
    Ok((Pragma::ExemptOn(text), rest))
}

/// `) ;` behind `Exempt_Off`
fn exempt_off<'a>(tokens: &'a [Token]) -> Parsed<'a, Pragma>
    ensures reads { Shows (Reads (λ m. read.off_by) tokens.now) result }
    ensures shorter { IfOk result (λ x. length x.1.now < length tokens.now) }
{
    let exemption = closed_by(Symbol::RightParenthesis, Ok((Pragma::ExemptOff, tokens)));
    closed_by(Symbol::Semicolon, exemption)
}

/// `Exempt_On , string ) ; | Exempt_Off ) ;`
#[tactic(auto, using(crate::proofs::PragmaCode::exemption_rules))]
fn exemption<'a>(parser: Parser, tokens: &'a [Token]) -> Parsed<'a, Pragma>
    ensures reads { Shows (Reads (λ m. read.exemption_by) tokens.now) result }
    ensures shorter { IfOk result (λ x. length x.1.now < length tokens.now) }
{
    let Some((token, rest)) = tokens.split_first() else {
        return Err(Fault::Syntax(tokens));
    };
    if symbol_in(token.lexeme) != Symbol::Identifier {
        return Err(Fault::Syntax(tokens));
    }
    if is_spelled("Exempt_On", token) {
        return exempt_on(parser, rest);
    }
    if is_spelled("Exempt_Off", token) {
        return exempt_off(rest);
    }
    Err(Fault::Syntax(tokens))
}

/// `Annotate ( Xcov , Exempt_On , string ) ; | Annotate ( Xcov , Exempt_Off ) ;` behind `PRAGMA`
#[tactic(auto, using(crate::proofs::PragmaCode::annotation_rules))]
fn annotation<'a>(parser: Parser, tokens: &'a [Token]) -> Parsed<'a, Pragma>
    ensures reads { Shows (Reads (read.annotation_by parser.extent) tokens.now) result }
    ensures shorter { IfOk result (λ x. length x.1.now < length tokens.now) }
{
    let rest = spelled("Annotate", tokens)?;
    let rest = word(Symbol::LeftParenthesis, rest)?;
    let rest = spelled("Xcov", rest)?;
    let rest = word(Symbol::Comma, rest)?;
    exemption(parser, rest)
}

/// `PRAGMA Annotate ( Xcov , Exempt_On , string ) ; | PRAGMA Annotate ( Xcov , Exempt_Off ) ;`.
/// Pragmas come with [`Extent::Whole`].
#[tactic(auto, using(crate::proofs::PragmaCode::pragma_rules))]
pub fn exemption_pragma<'a>(parser: Parser, tokens: &'a [Token]) -> Parsed<'a, Pragma>
    ensures reads { Shows (Reads (read.pragma_by parser.extent) tokens.now) result }
    ensures shorter { IfOk result (λ x. length x.1.now < length tokens.now) }
{
    let Some(rest) = behind(Symbol::Pragma, tokens) else {
        return Err(Fault::Syntax(tokens));
    };
    if !parser.extent.opens(Extent::Whole) {
        return Err(Fault::Syntax(tokens));
    }
    annotation(parser, rest)
}
