//! Input files: the words that a program gets, as text, one decimal number a line.

ghost use Rattle.std.specs.Prelude.{◌≡◌, ◌==◌, ◌∷◌, ◌<◌, [], length, IfOk, IfErr, MatchOption};
ghost use Rattle.std.specs.List.{position};
ghost use Rattle.std.specs.Str.Lines.{lines, strip_carriage_return};
ghost use Rattle.rv32_emulator.specs.InputFile.{number_of, numbers_of, IsRefusal};

use cov_base::Failure;
use std::alloc::Global;
use std::str;
use thiserror::Error;

/// The first line that spells no number. The lines count from 1.
#[derive(Clone, Copy, Debug, PartialEq, Eq, Error)]
#[error("input line {line} refused")]
pub struct InputFault {
    pub line: u64,
}

/// Reads an input file: the number of each line, in order. A line is an optional `-` and then
/// decimal digits, whose number an `i32` can hold; leading zeros and `-0` are taken. It ends by LF or
/// by CR LF, and the last one may end with the file. An empty file has no lines.
pub fn parse_input(alloc: Global, bytes: &[u8]) -> Result<Vec<i32>, Failure<InputFault>>
    ensures numbers { IfOk result (λ numbers. numbers_of bytes.now ≡ Ok numbers.items) }
    ensures refused { IfErr result (IsRefusal bytes.now) }
{
    let mut numbers = Vec::new(alloc);
    let mut line = 1;
    let mut rest = bytes;
    while let Some((text, after)) = split_line(rest) {
        let Some(number) = number_of(text) else {
            return Err(Failure::Fault(InputFault { line }));
        };
        numbers.push(number)?;
        line += 1;
        rest = after;
    }
    Ok(numbers)
}

/// Splits the first line off, without its end.
fn split_line(bytes: &[u8]) -> Option<(&[u8], &[u8])>
    ensures split { MatchOption result (bytes.now ≡ []) (λ parts. lines bytes.now ≡ parts.0.now ∷ lines parts.1.now) }
    ensures shorter { MatchOption result Unit (λ parts. length parts.1.now < length bytes.now) }
{
    if bytes.is_empty() {
        return None;
    }
    match newline(bytes) {
        Some(end) => Some((without_return(&bytes[..end]), &bytes[end + 1..])),
        None => Some((bytes, &[])),
    }
}

/// The place of the first line feed.
fn newline(bytes: &[u8]) -> Option<usize>
    ensures { result ≡ position (λ byte. byte == 10) bytes.now }
{
    bytes.iter().position(|byte| *byte == b'\n')
}

/// The line without the carriage return at its end.
fn without_return(line: &[u8]) -> &[u8]
    ensures { result.now ≡ strip_carriage_return line.now }
{
    line.strip_suffix(b"\r").unwrap_or(line)
}

/// The number that a line spells.
fn number_of(line: &[u8]) -> Option<i32>
    ensures { result ≡ number_of line.now }
{
    if line.starts_with(b"+") {
        return None;
    }
    match str::from_utf8(line) {
        Ok(text) => text.parse().ok(),
        Err(_) => None,
    }
}
