//! What stands in packages and in their bodies (Ada RM 2012, 7.1, 7.2).

ghost use Rattle.std.specs.Prelude.{◌≡◌, ◌<◌, ◌≤◌, length, IfOk};
ghost use Rattle.expression_parser.specs.Shows.{Shows, ShowsAs, Reads, next_is};
ghost use Rattle.ada_parser.specs.UnitReading as read;
ghost use Rattle.ada_parser.specs.UnitDepth as at;

use crate::bodies::body_rest;
use ada_lexer::Token;
use ada_syntax::{BodyItem, PackageItem, Specification};
use declaration_parser::{begins_declaration, closed_by, declaration, specification};
use expression_parser::{Parsed, Parser, Symbol, behind, symbol_in};

/// Whether the next token begins a specification.
fn begins_specification(tokens: &[Token]) -> bool
    ensures { result ≡ next_is read.begins_specification tokens.now }
{
    let Some((token, _)) = tokens.split_first() else {
        return false;
    };
    matches!(
        symbol_in(token.lexeme),
        Symbol::Procedure | Symbol::Function
    )
}

/// Whether the next token begins an item.
#[tactic(auto, using(crate::proofs::ItemCode::begin_rules))]
fn begins_item(tokens: &[Token]) -> bool
    ensures { result ≡ next_is read.begins_item tokens.now }
{
    if begins_declaration(tokens) {
        true
    } else {
        begins_specification(tokens)
    }
}

/// `ldecl | spec ;`
#[tactic(auto, using(crate::proofs::ItemCode::package_item_rules))]
fn package_item<'a>(parser: Parser, tokens: &'a [Token]) -> Parsed<'a, PackageItem>
    ensures reads { Shows (Reads (read.package_item_by parser.extent) tokens.now) result }
    ensures shorter { IfOk result (λ x. length x.1.now < length tokens.now) }
{
    if begins_declaration(tokens) {
        let (declaration, rest) = declaration(parser, tokens)?;
        return Ok((PackageItem::Declaration(declaration), rest));
    }
    let (specification, rest) = closed_by(Symbol::Semicolon, specification(parser, tokens))?;
    Ok((PackageItem::Subprogram(specification), rest))
}

/// `{decl}`
#[tactic(auto, using(crate::proofs::ItemCode::package_items_rules))]
pub fn package_items<'a>(parser: Parser, tokens: &'a [Token]) -> Parsed<'a, Vec<PackageItem>>
    ensures reads { ShowsAs (λ v. v.items) (Reads (read.package_items_by parser.extent) tokens.now) result }
    ensures no_longer { IfOk result (λ x. length x.1.now ≤ length tokens.now) }
{
    let mut rest = tokens;
    let mut items = Vec::new(parser.alloc);
    'rest: while begins_item(rest) {
        let (item, next) = package_item(parser, rest)?;
        items.push(item)?;
        rest = next;
    }
    Ok((items, rest))
}

/// `; | IS {ldecl} BEGIN stmts [handlers] END [id] ;` behind a specification
fn specified<'a>(
    parser: Parser,
    specification: Specification,
    tokens: &'a [Token],
) -> Parsed<'a, BodyItem>
    ensures reads { Shows (Reads (at.at_specified parser.extent specification) tokens.now) result }
    ensures shorter { IfOk result (λ x. length x.1.now < length tokens.now) }
{
    if let Some(rest) = behind(Symbol::Semicolon, tokens) {
        let item = PackageItem::Subprogram(specification);
        return Ok((BodyItem::Declared(item), rest));
    }
    let (specification, rest) = closed_by(Symbol::Is, Ok((specification, tokens)))?;
    let (body, rest) = body_rest(parser, specification, rest)?;
    Ok((BodyItem::Body(body), rest))
}

/// `decl | body`
#[tactic(auto, using(crate::proofs::ItemCode::body_item_rules))]
fn body_item<'a>(parser: Parser, tokens: &'a [Token]) -> Parsed<'a, BodyItem>
    ensures reads { Shows (Reads (read.body_item_by parser.extent) tokens.now) result }
    ensures shorter { IfOk result (λ x. length x.1.now < length tokens.now) }
{
    if begins_declaration(tokens) {
        let (declaration, rest) = declaration(parser, tokens)?;
        let item = PackageItem::Declaration(declaration);
        return Ok((BodyItem::Declared(item), rest));
    }
    let (specification, rest) = specification(parser, tokens)?;
    specified(parser, specification, rest)
}

/// `{decl | body}`
#[tactic(auto, using(crate::proofs::ItemCode::body_items_rules))]
pub fn body_items<'a>(parser: Parser, tokens: &'a [Token]) -> Parsed<'a, Vec<BodyItem>>
    ensures reads { ShowsAs (λ v. v.items) (Reads (read.body_items_by parser.extent) tokens.now) result }
    ensures no_longer { IfOk result (λ x. length x.1.now ≤ length tokens.now) }
{
    let mut rest = tokens;
    let mut items = Vec::new(parser.alloc);
    'rest: while begins_item(rest) {
        let (item, next) = body_item(parser, rest)?;
        items.push(item)?;
        rest = next;
    }
    Ok((items, rest))
}
