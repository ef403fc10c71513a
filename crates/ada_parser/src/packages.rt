//! Packages, their bodies, and generic packages and their instances (Ada RM 2012, 7.1, 7.2, 12.1, 12.3).

ghost use Rattle.std.specs.Prelude.{◌<◌, ◌≤◌, length, Option, IfOk};
ghost use Rattle.expression_parser.specs.Shows.{Shows, ShowsAs, Reads};
ghost use Rattle.ada_parser.specs.UnitReading as read;
ghost use Rattle.ada_parser.specs.UnitDepth as at;

use crate::contexts::end;
use crate::items::{body_items, package_items};
use ada_lexer::Token;
use ada_syntax::{
    Expr, Formal, Identifier, Instance, LibraryItem, PackageBody, PackageSpecification,
};
use cov_base::Seq;
use declaration_parser::{closed_by, formals};
use expression_parser::{Extent, Fault, Parsed, Parser, Symbol, behind};

/// `[( expr {, expr} )]`
fn actuals<'a>(parser: Parser, tokens: &'a [Token]) -> Parsed<'a, Vec<Expr>>
    ensures reads { ShowsAs (λ v. v.items) (Reads (read.actuals_by parser.extent) tokens.now) result }
    ensures no_longer { IfOk result (λ x. length x.1.now ≤ length tokens.now) }
{
    let Some(after) = behind(Symbol::LeftParenthesis, tokens) else {
        return Ok((Vec::new(parser.alloc), tokens));
    };
    closed_by(Symbol::RightParenthesis, parser.exprs(after))
}

/// `id [( expr {, expr} )] ;` behind `NEW`, of the instance of this name
fn instance<'a>(parser: Parser, name: Identifier, tokens: &'a [Token]) -> Parsed<'a, LibraryItem>
    ensures reads { Shows (Reads (at.at_instance parser.extent name) tokens.now) result }
    ensures shorter { IfOk result (λ x. length x.1.now < length tokens.now) }
{
    let (generic_name, rest) = parser.identifier(tokens)?;
    let (actuals, rest) = closed_by(Symbol::Semicolon, actuals(parser, rest))?;
    let instance = Instance {
        name,
        generic_name,
        actuals: Seq::from(actuals),
    };
    Ok((LibraryItem::Instance(instance), rest))
}

/// `{decl} END [id] ;` of the package of this name, with its formals where it is generic
fn package_rest<'a>(
    parser: Parser,
    formals: Option<Seq<Formal>>,
    name: Identifier,
    tokens: &'a [Token],
) -> Parsed<'a, LibraryItem>
    ensures reads { Shows (Reads (at.at_package parser.extent formals name) tokens.now) result }
    ensures shorter { IfOk result (λ x. length x.1.now < length tokens.now) }
{
    let (items, rest) = package_items(parser, tokens)?;
    let (end_name, rest) = end(parser, rest)?;
    let package = PackageSpecification {
        formals,
        name,
        items: Seq::from(items),
        end_name,
    };
    Ok((LibraryItem::Package(package), rest))
}

/// `NEW id [( expr {, expr} )] ; | {decl} END [id] ;` of this name. Instances come with
/// [`Extent::Generics`].
fn package_or_instance<'a>(
    parser: Parser,
    name: Identifier,
    tokens: &'a [Token],
) -> Parsed<'a, LibraryItem>
    ensures reads { Shows (Reads (at.at_package_or_instance parser.extent name) tokens.now) result }
    ensures shorter { IfOk result (λ x. length x.1.now < length tokens.now) }
{
    let Some(after) = behind(Symbol::New, tokens) else {
        return package_rest(parser, None, name, tokens);
    };
    if !parser.extent.opens(Extent::Generics) {
        return Err(Fault::Syntax(tokens));
    }
    instance(parser, name, after)
}

/// `id IS {decl | body} END [id] ;` behind `BODY`
fn package_body<'a>(parser: Parser, tokens: &'a [Token]) -> Parsed<'a, LibraryItem>
    ensures reads { Shows (Reads (read.package_body_by parser.extent) tokens.now) result }
    ensures shorter { IfOk result (λ x. length x.1.now < length tokens.now) }
{
    let (name, rest) = closed_by(Symbol::Is, parser.identifier(tokens))?;
    let (items, rest) = body_items(parser, rest)?;
    let (end_name, rest) = end(parser, rest)?;
    let body = PackageBody {
        name,
        items: Seq::from(items),
        end_name,
    };
    Ok((LibraryItem::PackageBody(body), rest))
}

/// What stands behind `PACKAGE`.
pub fn package<'a>(parser: Parser, tokens: &'a [Token]) -> Parsed<'a, LibraryItem>
    ensures reads { Shows (Reads (read.package_by parser.extent) tokens.now) result }
    ensures shorter { IfOk result (λ x. length x.1.now < length tokens.now) }
{
    if let Some(rest) = behind(Symbol::Body, tokens) {
        return package_body(parser, rest);
    }
    let (name, rest) = closed_by(Symbol::Is, parser.identifier(tokens))?;
    package_or_instance(parser, name, rest)
}

/// `{formal} PACKAGE id IS {decl} END [id] ;` behind `GENERIC`
pub fn generic<'a>(parser: Parser, tokens: &'a [Token]) -> Parsed<'a, LibraryItem>
    ensures reads { Shows (Reads (read.generic_by parser.extent) tokens.now) result }
    ensures shorter { IfOk result (λ x. length x.1.now < length tokens.now) }
{
    let (formals, rest) = closed_by(Symbol::Package, formals(parser, tokens))?;
    let (name, rest) = closed_by(Symbol::Is, parser.identifier(rest))?;
    package_rest(parser, Some(Seq::from(formals)), name, rest)
}
