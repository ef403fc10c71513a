//! Ranges, subtypes and type definitions (Ada RM 2012, 3.2.2, 3.5, 3.6, 3.8).

ghost use Rattle.std.specs.Prelude.{◌≡◌, ◌<◌, ◌≤◌, length, IfOk};
ghost use Rattle.expression_parser.specs.declared.symbol.Symbol.TheVariants as symbol;
ghost use Rattle.expression_parser.specs.Symbols.{same};
ghost use Rattle.expression_parser.specs.Shows.{Shows, ShowsAs, Reads, next_is};
ghost use Rattle.declaration_parser.specs.SubtypeReading as read;

use crate::parts::paired;
use crate::words::{closed_by, identifiers};
use ada_lexer::Token;
use ada_syntax::{
    Bounds, Component, DiscreteRange, Expr, ExprKind, SubtypeIndication, TypeDefinition,
};
use cov_base::Seq;
use expression_parser::{Extent, Fault, Parsed, Parser, Symbol, behind, symbol_in, word};

/// `simple .. simple`
pub fn bounds<'a>(parser: Parser, tokens: &'a [Token]) -> Parsed<'a, Bounds>
    ensures reads { Shows (Reads (read.bounds_by parser.extent) tokens.now) result }
    ensures shorter { IfOk result (λ x. length x.1.now < length tokens.now) }
{
    let (first, rest) = closed_by(Symbol::DoubleDot, parser.simple(tokens))?;
    let ((low, high), rest) = paired(first, parser.simple(rest))?;
    Ok((Bounds { low, high }, rest))
}

/// The name that an expression is, behind which no second bound follows.
fn mark<'a>(low: Expr, tokens: &'a [Token]) -> Parsed<'a, DiscreteRange>
    ensures { Shows (λ q. read.mark_alone (read.name_alone low) tokens.now ≡ q) result }
{
    let (_, kind) = low.into_parts();
    match kind {
        ExprKind::Name(name) => Ok((DiscreteRange::Mark(name), tokens)),
        _ => Err(Fault::Syntax(tokens)),
    }
}

/// `name | simple .. simple`. Ranges come with [`Extent::Types`].
#[tactic(auto, using(crate::proofs::SubtypeCode::range_rules))]
pub fn range<'a>(parser: Parser, tokens: &'a [Token]) -> Parsed<'a, DiscreteRange>
    ensures reads { Shows (Reads (read.range_by parser.extent) tokens.now) result }
    ensures shorter { IfOk result (λ x. length x.1.now < length tokens.now) }
{
    if !parser.extent.opens(Extent::Types) {
        return Err(Fault::Syntax(tokens));
    }
    let (first, rest) = parser.simple(tokens)?;
    let Some(after) = behind(Symbol::DoubleDot, rest) else {
        return mark(first, rest);
    };
    let ((low, high), rest) = paired(first, parser.simple(after))?;
    Ok((DiscreteRange::Bounds(Bounds { low, high }), rest))
}

/// `[RANGE simple .. simple]`. Ranges come with [`Extent::Types`].
#[tactic(auto, using(crate::proofs::SubtypeCode::constraint_rules))]
fn constraint<'a>(parser: Parser, tokens: &'a [Token]) -> Parsed<'a, Option<Bounds>>
    ensures reads { Shows (Reads (read.constraint_by parser.extent) tokens.now) result }
    ensures no_longer { IfOk result (λ x. length x.1.now ≤ length tokens.now) }
{
    let Some(after) = behind(Symbol::Range, tokens) else {
        return Ok((None, tokens));
    };
    if !parser.extent.opens(Extent::Types) {
        return Err(Fault::Syntax(tokens));
    }
    let (bounds, rest) = bounds(parser, after)?;
    Ok((Some(bounds), rest))
}

/// `name [RANGE simple .. simple]`
#[tactic(auto, using(crate::proofs::SubtypeCode::indication_rules))]
pub fn indication<'a>(parser: Parser, tokens: &'a [Token]) -> Parsed<'a, SubtypeIndication>
    ensures reads { Shows (Reads (read.indication_by parser.extent) tokens.now) result }
    ensures shorter { IfOk result (λ x. length x.1.now < length tokens.now) }
{
    let (mark, rest) = parser.name(tokens)?;
    let (constraint, rest) = constraint(parser, rest)?;
    Ok((SubtypeIndication { mark, constraint }, rest))
}

/// `id {, id} : sub ;`
fn component<'a>(parser: Parser, tokens: &'a [Token]) -> Parsed<'a, Component>
    ensures reads { Shows (Reads (read.component_by parser.extent) tokens.now) result }
    ensures shorter { IfOk result (λ x. length x.1.now < length tokens.now) }
{
    let (names, rest) = closed_by(Symbol::Colon, identifiers(parser, tokens))?;
    let (indication, rest) = closed_by(Symbol::Semicolon, indication(parser, rest))?;
    let names = Seq::from(names);
    Ok((Component { names, indication }, rest))
}

/// Whether the next token is an identifier.
fn begins_component(tokens: &[Token]) -> bool
    ensures { result ≡ next_is (λ s. same s symbol.Identifier) tokens.now }
{
    let Some((token, _)) = tokens.split_first() else {
        return false;
    };
    symbol_in(token.lexeme) == Symbol::Identifier
}

/// `comp {comp}`
#[tactic(auto, using(crate::proofs::SubtypeCode::components_rules))]
fn components<'a>(parser: Parser, tokens: &'a [Token]) -> Parsed<'a, Vec<Component>>
    ensures reads { ShowsAs (λ v. v.items) (Reads (read.components_by parser.extent) tokens.now) result }
    ensures shorter { IfOk result (λ x. length x.1.now < length tokens.now) }
{
    let (first, mut rest) = component(parser, tokens)?;
    let mut components = Vec::new(parser.alloc);
    components.push(first)?;
    'rest: while begins_component(rest) {
        let (component, next) = component(parser, rest)?;
        components.push(component)?;
        rest = next;
    }
    Ok((components, rest))
}

/// `( range ) OF`
fn index<'a>(parser: Parser, tokens: &'a [Token]) -> Parsed<'a, DiscreteRange>
    ensures reads { Shows (Reads (read.index_by parser.extent) tokens.now) result }
    ensures shorter { IfOk result (λ x. length x.1.now < length tokens.now) }
{
    let rest = word(Symbol::LeftParenthesis, tokens)?;
    let index = closed_by(Symbol::RightParenthesis, range(parser, rest));
    closed_by(Symbol::Of, index)
}

/// `( range ) OF sub` behind `ARRAY`
fn array<'a>(parser: Parser, tokens: &'a [Token]) -> Parsed<'a, TypeDefinition>
    ensures reads { Shows (Reads (read.array_by parser.extent) tokens.now) result }
    ensures shorter { IfOk result (λ x. length x.1.now < length tokens.now) }
{
    let (values, rest) = index(parser, tokens)?;
    let ((index, element), rest) = paired(values, indication(parser, rest))?;
    Ok((TypeDefinition::Array(index, element), rest))
}

/// `comp {comp} END RECORD` behind `RECORD`
fn components_to_end<'a>(parser: Parser, tokens: &'a [Token]) -> Parsed<'a, TypeDefinition>
    ensures reads { Shows (Reads (read.record_by parser.extent) tokens.now) result }
    ensures shorter { IfOk result (λ x. length x.1.now < length tokens.now) }
{
    let components = closed_by(Symbol::End, components(parser, tokens));
    let (components, rest) = closed_by(Symbol::Record, components)?;
    Ok((TypeDefinition::Record(Seq::from(components)), rest))
}

/// `( id {, id} )` behind its parenthesis
fn enumeration<'a>(parser: Parser, tokens: &'a [Token]) -> Parsed<'a, TypeDefinition>
    ensures reads { Shows (Reads read.enumeration_by tokens.now) result }
    ensures shorter { IfOk result (λ x. length x.1.now < length tokens.now) }
{
    let (literals, rest) = closed_by(Symbol::RightParenthesis, identifiers(parser, tokens))?;
    Ok((TypeDefinition::Enumeration(Seq::from(literals)), rest))
}

/// What a type definition is, by its first token.
#[tactic(auto, using(crate::proofs::SubtypeCode::definition_form_rules))]
fn definition_form<'a>(parser: Parser, tokens: &'a [Token]) -> Parsed<'a, TypeDefinition>
    ensures reads { Shows (Reads (read.definition_form parser.extent) tokens.now) result }
    ensures shorter { IfOk result (λ x. length x.1.now < length tokens.now) }
{
    let Some((token, rest)) = tokens.split_first() else {
        return Err(Fault::Syntax(tokens));
    };
    match symbol_in(token.lexeme) {
        Symbol::Range => {
            let (bounds, rest) = bounds(parser, rest)?;
            Ok((TypeDefinition::Integer(bounds), rest))
        }
        Symbol::LeftParenthesis => enumeration(parser, rest),
        Symbol::Array => array(parser, rest),
        Symbol::Record => components_to_end(parser, rest),
        _ => Err(Fault::Syntax(tokens)),
    }
}

/// `RANGE simple .. simple | ( id {, id} ) | ARRAY ( range ) OF sub | RECORD comp {comp} END RECORD`.
/// Types come with [`Extent::Types`].
#[tactic(auto, using(crate::proofs::SubtypeCode::definition_rules))]
pub fn definition<'a>(parser: Parser, tokens: &'a [Token]) -> Parsed<'a, TypeDefinition>
    ensures reads { Shows (Reads (read.definition_by parser.extent) tokens.now) result }
    ensures shorter { IfOk result (λ x. length x.1.now < length tokens.now) }
{
    if !parser.extent.opens(Extent::Types) {
        return Err(Fault::Syntax(tokens));
    }
    definition_form(parser, tokens)
}
