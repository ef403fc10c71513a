//! Library units and files (Ada RM 2012, 10.1).

ghost use Rattle.std.specs.Prelude.{◌<◌, length, IfOk};
ghost use Rattle.expression_parser.specs.Shows.{Shows, Reads};
ghost use Rattle.ada_parser.specs.UnitReading as read;
ghost use Rattle.ada_parser.specs.UnitDepth as at;
ghost use Rattle.ada_parser.specs.UnitDepth.{ReadsFile};

use crate::bodies::body;
use crate::contexts::withs;
use crate::packages::{generic, package};
use ada_lexer::Token;
use ada_syntax::{LibraryItem, Unit, WithClause};
use cov_base::{Pos, Seq};
use expression_parser::{Extent, Fault, Parsed, Parser, Symbol, symbol_in};

/// What a unit declares. Packages come with [`Extent::Subprograms`], generic ones with
/// [`Extent::Generics`].
#[tactic(auto, using(crate::proofs::UnitCode::item_rules))]
fn item<'a>(parser: Parser, tokens: &'a [Token]) -> Parsed<'a, LibraryItem>
    ensures reads { Shows (Reads (read.item_by parser.extent) tokens.now) result }
    ensures shorter { IfOk result (λ x. length x.1.now < length tokens.now) }
{
    let Some((token, rest)) = tokens.split_first() else {
        return Err(Fault::Syntax(tokens));
    };
    match symbol_in(token.lexeme) {
        Symbol::Generic => {
            if !parser.extent.opens(Extent::Generics) {
                return Err(Fault::Syntax(tokens));
            }
            generic(parser, rest)
        }
        Symbol::Package => {
            if !parser.extent.opens(Extent::Subprograms) {
                return Err(Fault::Syntax(tokens));
            }
            package(parser, rest)
        }
        _ => {
            let (body, rest) = body(parser, tokens)?;
            Ok((LibraryItem::Subprogram(body), rest))
        }
    }
}

/// The item of the unit that begins at this place and has these context clauses.
#[tactic(auto, using(crate::proofs::UnitCode::unit_item_rules))]
fn unit_item<'a>(
    parser: Parser,
    pos: Pos,
    withs: Seq<WithClause>,
    tokens: &'a [Token],
) -> Parsed<'a, Unit>
    ensures reads { Shows (Reads (at.at_unit_item parser.extent pos withs) tokens.now) result }
    ensures shorter { IfOk result (λ x. length x.1.now < length tokens.now) }
{
    let Some((token, _)) = tokens.split_first() else {
        return Err(Fault::Syntax(tokens));
    };
    let item_pos = token.pos;
    let (item, rest) = item(parser, tokens)?;
    let unit = Unit {
        pos,
        withs,
        item_pos,
        item,
    };
    Ok((unit, rest))
}

/// `{WITH id {, id} ;} lib`
#[tactic(auto, using(crate::proofs::UnitCode::unit_rules))]
fn unit<'a>(parser: Parser, tokens: &'a [Token]) -> Parsed<'a, Unit>
    ensures reads { Shows (Reads (read.unit_by parser.extent) tokens.now) result }
    ensures shorter { IfOk result (λ x. length x.1.now < length tokens.now) }
{
    let Some((token, _)) = tokens.split_first() else {
        return Err(Fault::Syntax(tokens));
    };
    let pos = token.pos;
    let (withs, rest) = withs(parser, tokens)?;
    unit_item(parser, pos, Seq::from(withs), rest)
}

/// `unit {unit}` up to the end of the tokens
#[tactic(auto, using(crate::proofs::UnitCode::file_rules))]
pub fn file<'a>(parser: Parser, tokens: &'a [Token]) -> Result<Vec<Unit>, Fault<'a>>
    ensures { ReadsFile parser.extent tokens.now result }
{
    let (first, mut rest) = unit(parser, tokens)?;
    let mut units = Vec::new(parser.alloc);
    units.push(first)?;
    'rest: while !rest.is_empty() {
        if !parser.extent.opens(Extent::Subprograms) {
            return Err(Fault::Syntax(rest));
        }
        let (unit, next) = unit(parser, rest)?;
        units.push(unit)?;
        rest = next;
    }
    Ok(units)
}
