//! Specifications of subprograms (Ada RM 2012, 6.1).

ghost use Rattle.std.specs.Prelude.{◌≡◌, ◌<◌, ◌≤◌, length, IfOk};
ghost use Rattle.expression_parser.specs.Reading.{Got};
ghost use Rattle.expression_parser.specs.Shows.{Shows, ShowsAs, Reads};
ghost use Rattle.declaration_parser.specs.DeclarationReading as read;

use crate::words::{closed_by, identifiers};
use ada_lexer::Token;
use ada_syntax::{Mode, Parameter, Specification};
use cov_base::{Pos, Seq};
use expression_parser::{Extent, Fault, Parsed, Parser, Symbol, behind, symbol_in};

/// `[IN | OUT | IN OUT]`
#[tactic(auto, using(crate::proofs::ProfileCode::mode_rules))]
fn mode(tokens: &[Token]) -> (Mode, &[Token])
    ensures reads { read.mode_by tokens.now ≡ Got result.0 result.1.now }
    ensures no_longer { length result.1.now ≤ length tokens.now }
{
    if let Some(rest) = behind(Symbol::Out, tokens) {
        return (Mode::Out, rest);
    }
    let Some(after) = behind(Symbol::In, tokens) else {
        return (Mode::Default, tokens);
    };
    match behind(Symbol::Out, after) {
        Some(rest) => (Mode::InOut, rest),
        None => (Mode::In, after),
    }
}

/// `id {, id} : [IN | OUT | IN OUT] name`
fn parameter<'a>(parser: Parser, tokens: &'a [Token]) -> Parsed<'a, Parameter>
    ensures reads { Shows (Reads (read.parameter_by parser.extent) tokens.now) result }
    ensures shorter { IfOk result (λ x. length x.1.now < length tokens.now) }
{
    let (names, rest) = closed_by(Symbol::Colon, identifiers(parser, tokens))?;
    let (mode, rest) = mode(rest);
    let (mark, rest) = parser.name(rest)?;
    let names = Seq::from(names);
    Ok((Parameter { names, mode, mark }, rest))
}

/// `param {; param}`
#[tactic(auto, using(crate::proofs::ProfileCode::parameters_rules))]
fn parameters<'a>(parser: Parser, tokens: &'a [Token]) -> Parsed<'a, Vec<Parameter>>
    ensures reads { ShowsAs (λ v. v.items) (Reads (read.parameters_by parser.extent) tokens.now) result }
    ensures shorter { IfOk result (λ x. length x.1.now < length tokens.now) }
{
    let (first, mut rest) = parameter(parser, tokens)?;
    let mut parameters = Vec::new(parser.alloc);
    parameters.push(first)?;
    while let Some(after) = behind(Symbol::Semicolon, rest) {
        let (parameter, next) = parameter(parser, after)?;
        parameters.push(parameter)?;
        rest = next;
    }
    Ok((parameters, rest))
}

/// `[( param {; param} )]`. Parameters come with [`Extent::Subprograms`].
#[tactic(auto, using(crate::proofs::ProfileCode::profile_rules))]
fn profile<'a>(parser: Parser, tokens: &'a [Token]) -> Parsed<'a, Vec<Parameter>>
    ensures reads { ShowsAs (λ v. v.items) (Reads (read.profile_by parser.extent) tokens.now) result }
    ensures no_longer { IfOk result (λ x. length x.1.now ≤ length tokens.now) }
{
    let Some(after) = behind(Symbol::LeftParenthesis, tokens) else {
        return Ok((Vec::new(parser.alloc), tokens));
    };
    if !parser.extent.opens(Extent::Subprograms) {
        return Err(Fault::Syntax(tokens));
    }
    closed_by(Symbol::RightParenthesis, parameters(parser, after))
}

/// `id [params]` behind `PROCEDURE`, which stands at `pos`
#[tactic(auto, using(crate::proofs::ProfileCode::procedure_rules))]
fn procedure<'a>(parser: Parser, pos: Pos, tokens: &'a [Token]) -> Parsed<'a, Specification>
    ensures reads { Shows (Reads (read.procedure_at parser.extent pos) tokens.now) result }
    ensures shorter { IfOk result (λ x. length x.1.now < length tokens.now) }
{
    let (name, rest) = parser.identifier(tokens)?;
    let (parameters, rest) = profile(parser, rest)?;
    let specification = Specification {
        pos,
        name,
        parameters: Seq::from(parameters),
        result_mark: None,
    };
    Ok((specification, rest))
}

/// `id [params] RETURN name` behind `FUNCTION`, which stands at `pos`
fn function<'a>(parser: Parser, pos: Pos, tokens: &'a [Token]) -> Parsed<'a, Specification>
    ensures reads { Shows (Reads (read.function_at parser.extent pos) tokens.now) result }
    ensures shorter { IfOk result (λ x. length x.1.now < length tokens.now) }
{
    let (name, rest) = parser.identifier(tokens)?;
    let (parameters, rest) = closed_by(Symbol::Return, profile(parser, rest))?;
    let (mark, rest) = parser.name(rest)?;
    let specification = Specification {
        pos,
        name,
        parameters: Seq::from(parameters),
        result_mark: Some(mark),
    };
    Ok((specification, rest))
}

/// `PROCEDURE id [params] | FUNCTION id [params] RETURN name`. Functions come with
/// [`Extent::Subprograms`].
#[tactic(auto, using(crate::proofs::ProfileCode::specification_rules))]
pub fn specification<'a>(parser: Parser, tokens: &'a [Token]) -> Parsed<'a, Specification>
    ensures reads { Shows (Reads (read.specification_by parser.extent) tokens.now) result }
    ensures shorter { IfOk result (λ x. length x.1.now < length tokens.now) }
{
    let Some((token, rest)) = tokens.split_first() else {
        return Err(Fault::Syntax(tokens));
    };
    match symbol_in(token.lexeme) {
        Symbol::Procedure => procedure(parser, token.pos, rest),
        Symbol::Function => {
            if !parser.extent.opens(Extent::Subprograms) {
                return Err(Fault::Syntax(tokens));
            }
            function(parser, token.pos, rest)
        }
        _ => Err(Fault::Syntax(tokens)),
    }
}
