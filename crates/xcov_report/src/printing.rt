//! The text of annotated sources.

ghost use Rattle.std.specs.Prelude.{◌≡◌, ◌++◌, length, OnOk};
ghost use Rattle.xcov_report.specs.Table.{kept_mark, marked_files};
ghost use Rattle.xcov_report.specs.Text.{head_text, number_text, line_text, lines_text, file_text};
ghost use Rattle.std.specs.Str.Lines.{lines};

use crate::lines::split_line;
use crate::table::Row;
use annotated_report::level_word;
use cov_base::{Level, SourceFile};
use std::alloc::{AllocError, Global};

/// Appends the first lines.
pub(crate) fn put_head(
    alloc: Global,
    text: &mut Vec<u8>,
    level: Level,
    traces: u64,
) -> Result<(), AllocError>
    ensures { OnOk result (text.new.items ≡ text.old.items ++ head_text level traces) }
{
    let level = level_word(level);
    let head = format!(in alloc; "gnatcov xcov\nlevel: {level}\ntraces: {traces}\n")?;
    text.extend_from_slice(head.as_bytes())
}

/// Appends a number, right in six places.
fn put_number(alloc: Global, text: &mut Vec<u8>, number: usize) -> Result<(), AllocError>
    ensures { OnOk result (text.new.items ≡ text.old.items ++ number_text number) }
{
    let digits = format!(in alloc; "{number}")?;
    let places: &[u8] = b"      ";
    if digits.len() < places.len() {
        text.extend_from_slice(&places[digits.len()..])?;
    }
    text.extend_from_slice(digits.as_bytes())
}

/// Appends a line with its number and its mark.
fn put_line(
    alloc: Global,
    text: &mut Vec<u8>,
    number: usize,
    mark: u8,
    line: &[u8],
) -> Result<(), AllocError>
    ensures { OnOk result (text.new.items ≡ text.old.items ++ line_text number mark line.now) }
{
    put_number(alloc, text, number)?;
    text.push(b' ')?;
    text.push(mark)?;
    text.extend_from_slice(b": ")?;
    text.extend_from_slice(line)?;
    text.extend_from_slice(b"\n")
}

/// Appends the lines of a file by what is kept of them.
fn put_lines(alloc: Global, text: &mut Vec<u8>, bytes: &[u8], row: &Row) -> Result<(), AllocError>
    ensures { OnOk result (text.new.items ≡ text.old.items ++ lines_text (kept_mark row.now) 1 (lines bytes.now)) }
{
    let mut number = 1;
    let mut rest = bytes;
    while let Some((line, after)) = split_line(rest) {
        put_line(alloc, text, number, row.mark(number), line)?;
        number += 1;
        rest = after;
    }
    Ok(())
}

/// Appends a file by what is kept of its lines.
fn put_file(
    alloc: Global,
    text: &mut Vec<u8>,
    file: &SourceFile,
    row: &Row,
) -> Result<(), AllocError>
    ensures { OnOk result (text.new.items ≡ text.old.items ++ file_text (kept_mark row.now) file.now) }
{
    text.extend_from_slice(b"file: ")?;
    text.extend_from_slice(file.name.as_slice())?;
    text.extend_from_slice(b"\n")?;
    put_lines(alloc, text, file.bytes.as_slice(), row)
}

/// Appends the files in the order of their numbers, by what is kept of their lines.
pub(crate) fn put_files(
    alloc: Global,
    text: &mut Vec<u8>,
    files: &[SourceFile],
    rows: &[Row],
) -> Result<(), AllocError>
    requires { length rows.now ≡ length files.now }
    ensures { OnOk result (text.new.items ≡ text.old.items ++ marked_files rows.now files.now) }
{
    for (number, file) in files.iter().enumerate() {
        put_file(alloc, text, file, &rows[number])?;
    }
    Ok(())
}
