//! Local declarations (Ada RM 2012, 3.1, 11.1).

ghost use Rattle.std.specs.Prelude.{◌≡◌, ◌<◌, ◌≤◌, length, IfOk};
ghost use Rattle.expression_parser.specs.Shows.{Shows, ShowsAs, Reads, next_is};
ghost use Rattle.declaration_parser.specs.DeclarationReading as read;

use crate::parts::paired;
use crate::pragmas::exemption_pragma;
use crate::subtypes::{definition, indication};
use crate::values::initial;
use crate::words::{closed_by, identifiers};
use ada_lexer::Token;
use ada_syntax::{Constancy, Declaration, DeclarationKind, Identifier, Initial, SubtypeIndication};
use cov_base::Seq;
use expression_parser::{Extent, Fault, Parsed, Parser, Symbol, behind, symbol_in};

/// `[:= init]`
#[tactic(auto, using(crate::proofs::DeclarationCode::initial_part_rules))]
fn initial_part<'a>(parser: Parser, tokens: &'a [Token]) -> Parsed<'a, Option<Initial>>
    ensures reads { Shows (Reads (read.initial_part_by parser.extent) tokens.now) result }
    ensures no_longer { IfOk result (λ x. length x.1.now ≤ length tokens.now) }
{
    let Some(after) = behind(Symbol::Becomes, tokens) else {
        return Ok((None, tokens));
    };
    let (value, rest) = initial(parser, after)?;
    Ok((Some(value), rest))
}

/// `sub [:= init] ;`
fn object_type<'a>(
    parser: Parser,
    tokens: &'a [Token],
) -> Parsed<'a, (SubtypeIndication, Option<Initial>)>
    ensures reads { Shows (Reads (read.object_type_by parser.extent) tokens.now) result }
    ensures shorter { IfOk result (λ x. length x.1.now < length tokens.now) }
{
    let (indication, rest) = indication(parser, tokens)?;
    let value = closed_by(Symbol::Semicolon, initial_part(parser, rest));
    paired(indication, value)
}

/// `sub [:= init] ;` of objects with these names
fn object<'a>(
    parser: Parser,
    names: Vec<Identifier>,
    constancy: Constancy,
    tokens: &'a [Token],
) -> Parsed<'a, DeclarationKind>
    ensures reads { Shows (Reads (read.object_at parser.extent names.items constancy) tokens.now) result }
    ensures shorter { IfOk result (λ x. length x.1.now < length tokens.now) }
{
    let ((indication, value), rest) = object_type(parser, tokens)?;
    let names = Seq::from(names);
    let kind = DeclarationKind::Object(names, constancy, indication, value);
    Ok((kind, rest))
}

/// What is declared behind these names and a colon. Exceptions come with [`Extent::Exceptions`].
#[tactic(auto, using(crate::proofs::DeclarationCode::named_rest_rules))]
fn named_rest<'a>(
    parser: Parser,
    names: Vec<Identifier>,
    tokens: &'a [Token],
) -> Parsed<'a, DeclarationKind>
    ensures reads { Shows (Reads (read.named_rest_at parser.extent names.items) tokens.now) result }
    ensures shorter { IfOk result (λ x. length x.1.now < length tokens.now) }
{
    let Some((token, rest)) = tokens.split_first() else {
        return Err(Fault::Syntax(tokens));
    };
    match symbol_in(token.lexeme) {
        Symbol::Exception => {
            if !parser.extent.opens(Extent::Exceptions) {
                return Err(Fault::Syntax(tokens));
            }
            let kind = DeclarationKind::Exception(Seq::from(names));
            closed_by(Symbol::Semicolon, Ok((kind, rest)))
        }
        Symbol::Constant => object(parser, names, Constancy::Constant, rest),
        _ => object(parser, names, Constancy::Variable, tokens),
    }
}

/// `id {, id} : [CONSTANT] sub [:= init] ; | id {, id} : EXCEPTION ;`
fn named<'a>(parser: Parser, tokens: &'a [Token]) -> Parsed<'a, DeclarationKind>
    ensures reads { Shows (Reads (read.named_by parser.extent) tokens.now) result }
    ensures shorter { IfOk result (λ x. length x.1.now < length tokens.now) }
{
    let (names, rest) = closed_by(Symbol::Colon, identifiers(parser, tokens))?;
    named_rest(parser, names, rest)
}

/// `id IS typedef ;` behind `TYPE`
fn type_declaration<'a>(parser: Parser, tokens: &'a [Token]) -> Parsed<'a, DeclarationKind>
    ensures reads { Shows (Reads (read.type_by parser.extent) tokens.now) result }
    ensures shorter { IfOk result (λ x. length x.1.now < length tokens.now) }
{
    let (name, rest) = closed_by(Symbol::Is, parser.identifier(tokens))?;
    let (definition, rest) = closed_by(Symbol::Semicolon, definition(parser, rest))?;
    Ok((DeclarationKind::Type(name, definition), rest))
}

/// `id IS sub ;` behind `SUBTYPE`
fn subtype_declaration<'a>(parser: Parser, tokens: &'a [Token]) -> Parsed<'a, DeclarationKind>
    ensures reads { Shows (Reads (read.subtype_by parser.extent) tokens.now) result }
    ensures shorter { IfOk result (λ x. length x.1.now < length tokens.now) }
{
    let (name, rest) = closed_by(Symbol::Is, parser.identifier(tokens))?;
    let (indication, rest) = closed_by(Symbol::Semicolon, indication(parser, rest))?;
    Ok((DeclarationKind::Subtype(name, indication), rest))
}

/// What a declaration declares. Types and subtypes come with [`Extent::Types`], objects with
/// [`Extent::Objects`].
#[tactic(auto, using(crate::proofs::DeclarationCode::kind_rules))]
fn kind<'a>(parser: Parser, tokens: &'a [Token]) -> Parsed<'a, DeclarationKind>
    ensures reads { Shows (Reads (read.kind_by parser.extent) tokens.now) result }
    ensures shorter { IfOk result (λ x. length x.1.now < length tokens.now) }
{
    let Some((token, rest)) = tokens.split_first() else {
        return Err(Fault::Syntax(tokens));
    };
    match symbol_in(token.lexeme) {
        Symbol::Type => {
            if !parser.extent.opens(Extent::Types) {
                return Err(Fault::Syntax(tokens));
            }
            type_declaration(parser, rest)
        }
        Symbol::Subtype => {
            if !parser.extent.opens(Extent::Types) {
                return Err(Fault::Syntax(tokens));
            }
            subtype_declaration(parser, rest)
        }
        Symbol::Identifier => {
            if !parser.extent.opens(Extent::Objects) {
                return Err(Fault::Syntax(tokens));
            }
            named(parser, tokens)
        }
        Symbol::Pragma => {
            let (exemption, rest) = exemption_pragma(parser, tokens)?;
            Ok((DeclarationKind::Pragma(exemption), rest))
        }
        _ => Err(Fault::Syntax(tokens)),
    }
}

/// `TYPE id IS typedef ; | SUBTYPE id IS sub ; | id {, id} : [CONSTANT] sub [:= init] ; |
/// id {, id} : EXCEPTION ; | pragma`
#[tactic(auto, using(crate::proofs::DeclarationCode::declaration_rules))]
pub fn declaration<'a>(parser: Parser, tokens: &'a [Token]) -> Parsed<'a, Declaration>
    ensures reads { Shows (Reads (read.declaration_by parser.extent) tokens.now) result }
    ensures shorter { IfOk result (λ x. length x.1.now < length tokens.now) }
{
    let Some((token, _)) = tokens.split_first() else {
        return Err(Fault::Syntax(tokens));
    };
    let pos = token.pos;
    let (kind, rest) = kind(parser, tokens)?;
    Ok((Declaration { pos, kind }, rest))
}

/// Whether the next token begins a local declaration.
pub fn begins_declaration(tokens: &[Token]) -> bool
    ensures { result ≡ next_is read.begins_declaration tokens.now }
{
    let Some((token, _)) = tokens.split_first() else {
        return false;
    };
    matches!(
        symbol_in(token.lexeme),
        Symbol::Type | Symbol::Subtype | Symbol::Identifier | Symbol::Pragma
    )
}

/// `{ldecl}`, up to the first token that begins none.
#[tactic(auto, using(crate::proofs::DeclarationCode::declarations_rules))]
pub fn local_declarations<'a>(parser: Parser, tokens: &'a [Token]) -> Parsed<'a, Vec<Declaration>>
    ensures reads { ShowsAs (λ v. v.items) (Reads (read.declarations_by parser.extent) tokens.now) result }
    ensures no_longer { IfOk result (λ x. length x.1.now ≤ length tokens.now) }
{
    let mut rest = tokens;
    let mut declarations = Vec::new(parser.alloc);
    'rest: while begins_declaration(rest) {
        let (declaration, next) = declaration(parser, rest)?;
        declarations.push(declaration)?;
        rest = next;
    }
    Ok((declarations, rest))
}
