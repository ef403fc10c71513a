//! The tokens, the syntax and the exempt regions of the source that stands in the latest blob.
//!
//! | Line | Asks |
//! |---|---|
//! | `lex` | each token's lexeme, kind, place and text, or the place of the fault |
//! | `nested` | the place of the first token that is nested too deep |
//! | `parse EXTENT` | the number of nodes of all units, or the place at which the source is refused |
//! | `beginnings EXTENT` | the lengths, in tokens, whose beginning is not refused at its last token |
//! | `regions` | the exempt regions, or the pragma that pairs with none |
//! | `exempt FILE LINE COLUMN` | whether that place is exempt |

use crate::reply::Reply;
use crate::words::capped;
use ada_lexer::{LexFault, Token, lex, nested};
use ada_parser::{SyntaxFault, count_nodes};
use cov_base::{Failure, Pos, Region};
use exemptions::{Unpaired, exempt, regions};
use expression_parser::Extent;
use std::alloc::Global;

/// The number of the source, which places name.
const FILE: u32 = 7;

/// What is asked of a source.
#[derive(Clone, Copy)]
pub(crate) enum Reading {
    Tokens,
    Nesting,
    Syntax,
    Beginnings,
    Regions,
    Exemption,
}

/// Puts what is asked of a source.
pub(crate) fn answer(alloc: Global, out: &mut Reply, reading: Reading, words: &str, source: &[u8]) {
    if source.len() > 0xffff_0000 {
        out.refuse("too large");
        return;
    }
    match lex(alloc, FILE, source) {
        Ok(tokens) => put_answer(alloc, out, reading, words, tokens.as_slice()),
        Err(Failure::Fault(LexFault { pos })) => put_no_tokens(out, reading, pos),
        Err(Failure::WantOfMemory) => out.lack_memory(),
    }
}

/// Puts that a source has no tokens, for what is asked of any source.
fn put_no_tokens(out: &mut Reply, reading: Reading, pos: Pos) {
    match reading {
        Reading::Tokens | Reading::Syntax => put_fault(out, pos, "lexical error"),
        _ => out.refuse("no tokens"),
    }
}

/// Puts what is asked of the tokens of a source.
fn put_answer(alloc: Global, out: &mut Reply, reading: Reading, words: &str, tokens: &[Token]) {
    match reading {
        Reading::Tokens => put_tokens(out, tokens),
        Reading::Nesting => match nested(tokens) {
            Some(pos) => put_fault(out, pos, "nested too deep"),
            None => out.put("nested well\n"),
        },
        Reading::Syntax => match count_nodes(alloc, extent_of(words), tokens) {
            Ok(nodes) => out.put(format_args!("derives, {nodes} nodes\n")),
            Err(Failure::Fault(SyntaxFault { pos })) => put_fault(out, pos, "syntax error"),
            Err(Failure::WantOfMemory) => out.lack_memory(),
        },
        Reading::Beginnings => put_beginnings(alloc, out, extent_of(words), tokens),
        Reading::Regions | Reading::Exemption => match regions(alloc, tokens) {
            Ok(regions) => put_regions(out, reading, words, regions.as_slice()),
            Err(Failure::Fault(Unpaired { pos })) => put_fault(out, pos, "exemption error"),
            Err(Failure::WantOfMemory) => out.lack_memory(),
        },
    }
}

/// Puts bytes, each that is no printable ASCII as a dot, and ends the line.
fn put_text(out: &mut Reply, bytes: &[u8]) {
    for byte in bytes {
        out.put(match *byte {
            b' '..=b'~' => char::from(*byte),
            _ => '.',
        });
    }
    out.put("\n");
}

/// Puts a place and what is wrong there.
fn put_fault(out: &mut Reply, pos: Pos, fault: &str) {
    out.put(format_args!("{}:{}: {fault}\n", pos.line, pos.col));
}

/// Puts tokens, and how many there are.
fn put_tokens(out: &mut Reply, tokens: &[Token]) {
    for token in tokens {
        let Pos { file, line, col } = token.pos;
        out.put(format_args!("{file} {line}:{col} {}..{} ", token.from, token.to));
        out.put(format_args!("{:?} {:?} ", token.kind(), token.lexeme));
        put_text(out, token.text.as_slice());
    }
    out.put(format_args!("{} tokens\n", tokens.len()));
}

/// The extent that a word names; that of straight-line code for others.
fn extent_of(word: &str) -> Extent {
    match word {
        "objects" => Extent::Objects,
        "decisions" => Extent::Decisions,
        "short-circuit" => Extent::ShortCircuit,
        "types" => Extent::Types,
        "subprograms" => Extent::Subprograms,
        "exceptions" => Extent::Exceptions,
        "generics" => Extent::Generics,
        "whole" => Extent::Whole,
        _ => Extent::StraightLine,
    }
}

/// Whether the last of tokens stands at a place; without tokens whether that is line 1 and column 1.
fn ends_at(tokens: &[Token], place: Pos) -> bool {
    let (line, col) = match tokens.last() {
        Some(last) => (last.pos.line, last.pos.col),
        None => (1, 1),
    };
    place.line == line && place.col == col
}

/// Puts which beginnings of tokens are not refused at their last one.
fn put_beginnings(alloc: Global, out: &mut Reply, extent: Extent, tokens: &[Token]) {
    for length in 0..=tokens.len() {
        let beginning = &tokens[..length];
        match count_nodes(alloc, extent, beginning) {
            Err(Failure::Fault(SyntaxFault { pos })) if ends_at(beginning, pos) => {}
            Err(Failure::WantOfMemory) => out.lack_memory(),
            _ => out.put(format_args!("{length} of {} tokens\n", tokens.len())),
        }
    }
}

/// Puts exempt regions and how many there are, or whether the place that words name is exempt.
fn put_regions(out: &mut Reply, reading: Reading, words: &str, regions: &[Region]) {
    if let Reading::Exemption = reading {
        let place = place_of(out, words);
        out.put(if exempt(regions, place) {
            "exempt\n"
        } else {
            "not exempt\n"
        });
        return;
    }
    for region in regions {
        out.put(format_args!("{} ", region.file));
        out.put(format_args!("{}:{} to ", region.from_line, region.from_column));
        out.put(format_args!("{}:{} ", region.to_line, region.to_column));
        put_text(out, region.why.as_slice());
    }
    out.put(format_args!("{} regions\n", regions.len()));
}

/// The place that the numbers of a file, a line and a column name.
fn place_of(out: &mut Reply, words: &str) -> Pos {
    let mut place = [0u32; 3];
    for (part, word) in place.iter_mut().zip(words.split_ascii_whitespace()) {
        *part = capped(out, word);
    }
    let [file, line, col] = place;
    Pos { file, line, col }
}
