//! The exemption pragmas of a source.

ghost use Rattle.std.specs.Prelude.{◌≡◌, IfOk, option_map};
ghost use Rattle.std.specs.Str.{str_eq_ignore_ascii_case};
ghost use Rattle.exemptions.specs.Marks.{
  behind,
  exempt_off,
  exempt_on,
  pragma_end,
  said_behind,
  said_by,
  on_of,
  mark_of,
};
ghost use Rattle.exemptions.specs.Table.{behind_in};

use ada_lexer::{Lexeme, Token};
use cov_base::{Bytes, Pos};
use std::alloc::{AllocError, Global};

/// What an exemption pragma marks, and where it stands.
#[derive(Drop)]
pub enum Mark {
    /// A region begins, with its justification.
    On(Pos, Bytes),
    /// A region ends.
    Off(Pos),
}

/// What the exemption pragma marks with which tokens begin, if there is one.
pub fn mark_at(alloc: Global, tokens: &[Token]) -> Result<Option<Mark>, AllocError>
    ensures { IfOk result (λ m. m ≡ mark_of tokens.now) }
{
    let Some(first) = tokens.first() else {
        return Ok(None);
    };
    if behind_exempt_off(tokens).is_some() {
        return Ok(Some(Mark::Off(first.pos)));
    }
    match behind_exempt_on(tokens) {
        Some(rest) => on_at(alloc, first.pos, rest),
        None => Ok(None),
    }
}

/// What a pragma at `pos` marks whose tokens go on so behind `Exempt_On,`.
fn on_at(alloc: Global, pos: Pos, tokens: &[Token]) -> Result<Option<Mark>, AllocError>
    ensures { IfOk result (λ m. m ≡ on_of pos tokens.now) }
{
    let Some((why, rest)) = tokens.split_first() else {
        return Ok(None);
    };
    if behind_pragma_end(rest).is_none() {
        return Ok(None);
    }
    match why.lexeme {
        Lexeme::Text => Ok(Some(Mark::On(pos, said(alloc, why.text.as_slice())?))),
        _ => Ok(None),
    }
}

/// What a string literal says: its text without the quotes round it, each quote within once.
fn said(alloc: Global, literal: &[u8]) -> Result<Bytes, AllocError>
    ensures { IfOk result (λ bytes. bytes ≡ said_by literal.now) }
{
    let mut bytes = Vec::new(alloc);
    let Some((_, mut rest)) = literal.split_first() else {
        return Ok(Bytes::from(bytes));
    };
    while let Some((byte, after)) = rest.split_first() {
        match after.split_first() {
            None => return Ok(Bytes::from(bytes)),
            Some((_, behind)) if *byte == b'"' => {
                bytes.push(*byte)?;
                rest = behind;
            }
            Some(_) => {
                bytes.push(*byte)?;
                rest = after;
            }
        }
    }
    Ok(Bytes::from(bytes))
}

/// The tokens behind a pragma that ends a region.
fn behind_exempt_off(tokens: &[Token]) -> Option<&[Token]>
    ensures { option_map (λ r. r.now) result ≡ behind exempt_off tokens.now }
{
    behind(tokens, &EXEMPT_OFF)
}

/// The tokens behind the front of a pragma that begins a region.
fn behind_exempt_on(tokens: &[Token]) -> Option<&[Token]>
    ensures { option_map (λ r. r.now) result ≡ behind exempt_on tokens.now }
{
    behind(tokens, &EXEMPT_ON)
}

/// The tokens behind the end of a pragma.
fn behind_pragma_end(tokens: &[Token]) -> Option<&[Token]>
    ensures { option_map (λ r. r.now) result ≡ behind pragma_end tokens.now }
{
    behind(tokens, &PRAGMA_END)
}

/// The tokens behind those that begin with the spellings, case ignored.
fn behind<'a>(tokens: &'a [Token], spellings: &[&str]) -> Option<&'a [Token]>
    ensures { option_map (λ r. r.now) result ≡ behind_in spellings.now tokens.now }
{
    let mut rest = tokens;
    for spelling in spellings {
        let (token, after) = rest.split_first()?;
        if !is_spelled(token, spelling) {
            return None;
        }
        rest = after;
    }
    Some(rest)
}

/// Whether a token is spelled so, case ignored.
fn is_spelled(token: &Token, spelling: &str) -> bool
    ensures { result ≡ str_eq_ignore_ascii_case spelling.now token.now.text }
{
    spelling
        .as_bytes()
        .eq_ignore_ascii_case(token.text.as_slice())
}

/// How a pragma is spelled that ends a region.
static EXEMPT_OFF: [&str; 8] = [
    "pragma",
    "Annotate",
    "(",
    "Xcov",
    ",",
    "Exempt_Off",
    ")",
    ";",
];

/// How a pragma that begins a region is spelled, up to its justification.
static EXEMPT_ON: [&str; 7] = ["pragma", "Annotate", "(", "Xcov", ",", "Exempt_On", ","];

/// And behind it.
static PRAGMA_END: [&str; 2] = [")", ";"];
