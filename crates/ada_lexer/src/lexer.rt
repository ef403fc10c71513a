//! The lexer: the tokens of a source.

ghost use Rattle.std.specs.Prelude.{◌≡◌, ◌+◌, ◌-◌, ◌^◌, ◌<◌, length, All, AllPairs, IfOk, IfErr};
ghost use Rattle.ada_lexer.specs.Tokens.{
  token_of,
  place_after,
  tokens_of,
  IsTokenOf,
  StandBetween,
  IsBefore,
  Fails,
};

use crate::cut::{Cut, cut_off};
use crate::token::{Lexeme, Token};
use cov_base::{Bytes, Failure, Pos};
use std::alloc::{AllocError, Global};
use thiserror::Error;

/// A source has no tokens: nothing of the language stands at this place.
#[derive(Clone, Copy, Debug, PartialEq, Eq, Error)]
#[error("no token")]
pub struct LexFault {
    /// The place.
    pub pos: Pos,
}

/// Cuts a source into its tokens. The fault is at the first byte of an ill-formed, too long or too
/// great word, at the quote of a string literal that its line does not end, and else at the first
/// byte that begins no token. `file` is the number of the source, which the places name.
pub fn lex(alloc: Global, file: u32, source: &[u8]) -> Result<Vec<Token>, Failure<LexFault>>
    requires { length source.now < 2 ^ 32 - 1 }
    ensures tokens { IfOk result (λ tokens. tokens_of file source.now ≡ Ok tokens.items) }
    ensures each { IfOk result (λ tokens. All (IsTokenOf file source.now) tokens.items) }
    ensures rising { IfOk result (λ tokens. StandBetween 0 tokens.items (length source.now)) }
    ensures places { IfOk result (λ tokens. AllPairs (λ a b. IsBefore a.pos b.pos) tokens.items) }
    ensures fault { IfErr result (λ failure. Fails failure (tokens_of file source.now)) }
{
    let mut tokens = Vec::new(alloc);
    let mut pos = Pos {
        file,
        line: 1,
        col: 1,
    };
    let mut from: u32 = 0;
    let mut rest = source;
    while !rest.is_empty() {
        match cut_off(rest) {
            None => return Err(Failure::Fault(LexFault { pos })),
            Some(Cut::Blank(length)) => {
                let (blank, after) = rest.split_at(length);
                pos = pos_after(pos, blank);
                from += length as u32;
                rest = after;
            }
            Some(Cut::Token(lexeme, length)) => {
                let (bytes, after) = rest.split_at(length);
                tokens.push(make_token(alloc, lexeme, pos, from, bytes)?)?;
                pos = pos_after(pos, bytes);
                from += length as u32;
                rest = after;
            }
        }
    }
    Ok(tokens)
}

/// The token that bytes are which begin at `pos` and at the offset `from`.
fn make_token(
    alloc: Global,
    lexeme: Lexeme,
    pos: Pos,
    from: u32,
    bytes: &[u8],
) -> Result<Token, AllocError>
    requires { from + length bytes.now < 2 ^ 32 }
    ensures { IfOk result (λ t. t ≡ token_of lexeme pos from (from + length bytes.now) bytes.now) }
{
    Ok(Token {
        lexeme,
        pos,
        from,
        to: from + bytes.len() as u32,
        text: Bytes::from(Vec::from_slice(alloc, bytes)?),
    })
}

/// The place behind bytes that begin at `pos`.
fn pos_after(pos: Pos, bytes: &[u8]) -> Pos
    requires line { pos.line + length bytes.now < 2 ^ 32 }
    requires column { pos.col + length bytes.now < 2 ^ 32 }
    ensures { result ≡ place_after pos bytes.now }
{
    let mut pos = pos;
    for byte in bytes {
        if *byte == b'\n' {
            pos.line += 1;
            pos.col = 1;
        } else {
            pos.col += 1;
        }
    }
    pos
}
