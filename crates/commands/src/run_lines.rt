//! The lines that tell of a run.

ghost use Rattle.std.specs.Prelude.{◌≡◌, ◌++◌, string_bytes, option_map, IfOk, OnOk};
ghost use Rattle.std.specs.List.{flat_map};
ghost use Rattle.commands.specs.RunLines as lines;

use cov_base::ExceptionName;
use rv32_emulator::Ending;
use std::alloc::{AllocError, Global};

/// How many bytes the digest at a file's end takes.
const DIGEST_BYTES: usize = 32;

/// The lines that tell of a run: the words that it put, its ending, which is by return or by one of
/// these exceptions, how many instructions were executed, and the digest of its trace.
pub fn run_lines(
    alloc: Global,
    exceptions: &[ExceptionName],
    put: &[i32],
    ending: Ending,
    trace: &[u8],
) -> Result<Vec<u8>, AllocError>
    ensures { IfOk result (λ text. text.items
        ≡ lines.run_lines exceptions.now put.now ending.number ending.count trace.now) }
{
    let mut text = put_lines(alloc, put)?;
    push_ending(&mut text, exception_name(exceptions, ending.number))?;
    push_length(alloc, &mut text, ending.count, trace)?;
    Ok(text)
}

/// A line for each word that the program put.
fn put_lines(alloc: Global, words: &[i32]) -> Result<Vec<u8>, AllocError>
    ensures { IfOk result (λ text. text.items ≡ flat_map lines.put_line words.now) }
{
    let mut text = Vec::new(alloc);
    for word in words {
        let line = put_line(alloc, *word)?;
        text.extend_from_slice(line.as_bytes())?;
    }
    Ok(text)
}

/// The line of a word that the program put.
fn put_line(alloc: Global, word: i32) -> Result<String, AllocError>
    ensures { IfOk result (λ line. string_bytes line ≡ lines.put_line word) }
{
    format!(in alloc; "put: {word}\n")
}

/// The name of the exception with this number, from 1.
fn exception_name(exceptions: &[ExceptionName], number: u32) -> Option<&ExceptionName>
    ensures { option_map (λ name. name.now) result ≡ lines.exception_name exceptions.now number }
{
    let place = number.checked_sub(1)?;
    exceptions.get(place as usize)
}

/// Appends the line of how the run ended: by return, or by the exception of this name.
fn push_ending(text: &mut Vec<u8>, exception: Option<&ExceptionName>) -> Result<(), AllocError>
    ensures { OnOk result (text.new.items
        ≡ text.old.items ++ lines.ending_line (option_map (λ name. name.now) exception.entry)) }
{
    match exception {
        Some(name) => {
            text.extend_from_slice(b"ending: exception ")?;
            text.extend_from_slice(name.as_slice())?;
            text.extend_from_slice(b"\n")
        }
        None => text.extend_from_slice(b"ending: return\n"),
    }
}

/// Appends the lines of how many instructions were executed, and of the digest of the trace.
fn push_length(
    alloc: Global,
    text: &mut Vec<u8>,
    count: u32,
    trace: &[u8],
) -> Result<(), AllocError>
    ensures { OnOk result (text.new.items ≡ text.old.items ++ lines.length_lines count trace.now) }
{
    let closing = hex::encode(alloc, closing_of(trace))?;
    let told = format!(in alloc; "instructions: {count}\nrun: {closing}\n")?;
    text.extend_from_slice(told.as_bytes())
}

/// The digest at a file's end.
pub fn closing_of(file: &[u8]) -> &[u8]
    ensures { result.now ≡ lines.closing_of file.now }
{
    &file[file.len().saturating_sub(DIGEST_BYTES)..]
}
