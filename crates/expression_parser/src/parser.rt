//! What every part of the parser needs, and single tokens.

ghost use Rattle.std.specs.Prelude.{◌≡◌};
ghost use Rattle.std.specs.Option.{option_copied};
ghost use Rattle.expression_parser.specs.Shows.{TakesWord, TakesPlace, TakesIdentifier, IsOpen, after};

use crate::extent::Extent;
use crate::fault::{Fault, Parsed};
use crate::symbol::{Symbol, symbol_in};
use ada_lexer::Token;
use ada_syntax::Identifier;
use cov_base::{Bytes, Pos};
use std::alloc::Global;

/// The allocator, and the grammar's extent.
#[derive(Clone, Copy)]
pub struct Parser {
    pub alloc: Global,
    pub extent: Extent,
}

/// Takes a given word or delimiter.
pub fn word<'a>(wanted: Symbol, tokens: &'a [Token]) -> Result<&'a [Token], Fault<'a>>
    ensures { TakesWord wanted tokens.now result }
{
    match behind(wanted, tokens) {
        Some(rest) => Ok(rest),
        None => Err(Fault::Syntax(tokens)),
    }
}

/// Takes a given word, and tells its place.
pub fn word_at<'a>(wanted: Symbol, tokens: &'a [Token]) -> Parsed<'a, Pos>
    ensures { TakesPlace wanted tokens.now result }
{
    let Some((token, rest)) = tokens.split_first() else {
        return Err(Fault::Syntax(tokens));
    };
    if symbol_in(token.lexeme) == wanted {
        Ok((token.pos, rest))
    } else {
        Err(Fault::Syntax(tokens))
    }
}

/// The tokens behind a given word or delimiter, where the next token is one.
pub fn behind<'a>(wanted: Symbol, tokens: &'a [Token]) -> Option<&'a [Token]>
    ensures { option_copied result ≡ after wanted tokens.now }
{
    let Some((token, rest)) = tokens.split_first() else {
        return None;
    };
    if symbol_in(token.lexeme) == wanted {
        Some(rest)
    } else {
        None
    }
}

impl Parser {
    /// Whether a part of the grammar that comes with `needed` is open.
    pub fn needs<'a>(self, needed: Extent, tokens: &'a [Token]) -> Result<(), Fault<'a>>
        ensures { IsOpen self.extent needed tokens.now result }
    {
        if self.extent.opens(needed) {
            Ok(())
        } else {
            Err(Fault::Syntax(tokens))
        }
    }

    /// Takes an identifier.
    pub fn identifier<'a>(self, tokens: &'a [Token]) -> Parsed<'a, Identifier>
        ensures { TakesIdentifier tokens.now result }
    {
        let Some((token, rest)) = tokens.split_first() else {
            return Err(Fault::Syntax(tokens));
        };
        if symbol_in(token.lexeme) != Symbol::Identifier {
            return Err(Fault::Syntax(tokens));
        }
        let text = Vec::from_slice(self.alloc, token.text.as_slice())?;
        let identifier = Identifier {
            pos: token.pos,
            text: Bytes::from(text),
        };
        Ok((identifier, rest))
    }
}
