//! Files, and the places of refusals.

ghost use Rattle.std.specs.Prelude.{◌≡◌, List, IfOk, IfErr, sum_by};
ghost use Rattle.ada_syntax.specs.Nodes.{capped, unit_nodes};
ghost use Rattle.ada_syntax.specs.declared.unit.Unit.{Unit as LibraryUnit};
ghost use Rattle.declaration_parser.specs.NodeTokens.{node_tokens};
ghost use Rattle.ada_parser.specs.Grammar.{IsFile};
ghost use Rattle.ada_parser.specs.Opening.{open_extent};
ghost use Rattle.ada_parser.specs.Refusal as refusal;

use crate::units::file;
use ada_lexer::Token;
use ada_syntax::{Unit, node_count};
use cov_base::{Failure, Pos};
use expression_parser::{Extent, Fault, Parser};
use std::alloc::Global;
use thiserror::Error;

/// How much of the grammar sources are read by: all of it.
const OPEN_EXTENT: Extent = Extent::Whole;

/// The tokens derive no file. The place is that of the first token with which the tokens so far
/// begin none, or, where there is no such token, that of the last one. Without tokens it is line 1
/// and column 1 of file 0.
#[derive(Clone, Copy, Debug, PartialEq, Eq, Error)]
#[error("syntax error")]
pub struct SyntaxFault {
    pub pos: Pos,
}

/// The place of the last token, if there is one.
#[tactic(auto, using(crate::proofs::RefusalLaws::end_places))]
fn end_place(tokens: &[Token]) -> Pos
    ensures { result ≡ refusal.end_place tokens.now }
{
    match tokens.split_last() {
        Some((last, _)) => last.pos,
        None => Pos {
            file: 0,
            line: 1,
            col: 1,
        },
    }
}

/// The place of a refusal, where reading stops before `rest`.
fn refused_at(rest: &[Token], tokens: &[Token]) -> Pos
    ensures { result ≡ refusal.place_of rest.now tokens.now }
{
    match rest.split_first() {
        Some((token, _)) => token.pos,
        None => end_place(tokens),
    }
}

/// The failure of a file whose reading stops so: want of memory is told as itself, and a fault by its place.
fn failure_of(fault: Fault<'_>, tokens: &[Token]) -> Failure<SyntaxFault>
    ensures { result ≡ refusal.failure_of fault.entry tokens.now }
{
    match fault {
        Fault::Syntax(rest) => Failure::Fault(SyntaxFault {
            pos: refused_at(rest, tokens),
        }),
        Fault::Memory => Failure::WantOfMemory,
    }
}

/// The library units of a file, from its tokens, within an extent of the grammar.
#[tactic(auto, using(crate::proofs::RefusalLaws::parses))]
pub fn parse_within(
    alloc: Global,
    extent: Extent,
    tokens: &[Token],
) -> Result<Vec<Unit>, Failure<SyntaxFault>>
    ensures tree { IfOk result (λ units. IsFile extent units.items tokens.now) }
    ensures only_tree { IfOk result (λ units. refusal.IsOnlyFile extent tokens.now units.items) }
    ensures nodes { IfOk result (λ units. sum_by unit_nodes units.items ≡ node_tokens tokens.now) }
    ensures refused { IfErr result (refusal.RefusedBy extent tokens.now) }
{
    match file(Parser { alloc, extent }, tokens) {
        Ok(units) => Ok(units),
        Err(fault) => Err(failure_of(fault, tokens)),
    }
}

/// The library units of a file of the whole language, from its tokens.
pub fn parse(alloc: Global, tokens: &[Token]) -> Result<Vec<Unit>, Failure<SyntaxFault>>
    ensures tree { IfOk result (λ units. IsFile open_extent units.items tokens.now) }
    ensures only_tree { IfOk result (λ units. refusal.IsOnlyFile open_extent tokens.now units.items) }
    ensures nodes { IfOk result (λ units. sum_by unit_nodes units.items ≡ node_tokens tokens.now) }
    ensures refused { IfErr result (refusal.RefusedBy open_extent tokens.now) }
{
    parse_within(alloc, OPEN_EXTENT, tokens)
}

/// The nodes of units, one after another. The count stands still at 2^32 - 1.
fn nodes_of(units: &[Unit]) -> u32
    ensures { result ≡ capped (sum_by unit_nodes units.now) }
{
    let mut nodes: u32 = 0;
    for unit in units {
        nodes = nodes.saturating_add(node_count(unit));
    }
    nodes
}

/// How many nodes the library units of a file have, from its tokens, within an extent of the grammar:
/// for who asks whether there are such units, and keeps none. The count stands still at 2^32 - 1.
pub fn count_nodes(
    alloc: Global,
    extent: Extent,
    tokens: &[Token],
) -> Result<u32, Failure<SyntaxFault>>
    ensures derived { IfOk result (λ nodes. (units : List LibraryUnit) × IsFile extent units tokens.now
        × (nodes ≡ capped (sum_by unit_nodes units))) }
    ensures nodes { IfOk result (λ nodes. nodes ≡ capped (node_tokens tokens.now)) }
    ensures refused { IfErr result (refusal.RefusedBy extent tokens.now) }
{
    let units = parse_within(alloc, extent, tokens)?;
    Ok(nodes_of(units.as_slice()))
}

/// Gives back the memory of units, for who keeps them no longer. What it takes to drop a tree is proved
/// anew in each crate that drops one, and this crate does it for those above.
pub fn discard_units(units: Vec<Unit>) {
    drop(units);
}
