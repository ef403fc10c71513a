//! Other forms of a report, of a source with statements alone.
//!
//! | Line | Answer |
//! |---|---|
//! | `listed STARTED FROM TO LINE COLUMN..` | the annotated listing of the latest blob, which has statements at these places, of which the first STARTED were started, and, where FROM is not 0, a region from column 4 of that line to column 4 of line TO |
//! | `told STARTED FROM TO LINE COLUMN..` | the same report as JSON |

ghost use Rattle.std.specs.Prelude.{IfOk};
ghost use Rattle.json_report.specs.Caller.{AreExplainedInUtf8, AreNamedInUtf8};

use crate::reply::Reply;
use crate::words::numbers;
use cov_base::{
    Bytes, Event, InstId, Level, Obligations, Region, Seq, SourceFile, StmtEntry, StmtId,
};
use json_report::json;
use std::alloc::{AllocError, Global};
use xcov_report::xcov;

/// Which form is asked for.
#[derive(Clone, Copy)]
pub(crate) enum Form {
    Listing,
    Json,
}

/// Puts the report in the form that is asked for.
pub(crate) fn listed(alloc: Global, out: &mut Reply, form: Form, words: &str, blob: &[u8]) {
    let numbers = numbers(alloc, out, words);
    match text(alloc, form, numbers.as_slice(), blob) {
        Ok(text) => put_text(out, text.as_slice()),
        Err(_) => out.lack_memory(),
    }
}

/// Puts a text, if it is UTF-8.
fn put_text(out: &mut Reply, text: &[u8]) {
    match std::str::from_utf8(text) {
        Ok(text) => out.put(text),
        Err(_) => out.put_hex(text),
    }
}

/// The text of a report at the level of statements, of one trace.
fn text(alloc: Global, form: Form, numbers: &[u64], blob: &[u8]) -> Result<Vec<u8>, AllocError> {
    let (counts, places) = numbers.split_at(numbers.len().min(3));
    let [started, from, to] = counts else {
        return Ok(Vec::new(alloc));
    };
    let obligations = Obligations {
        statements: Seq::from(statements(alloc, places)?),
        decisions: Seq::from(Vec::new(alloc)),
        regions: Seq::from(regions(alloc, *from, *to)?),
        instances: Seq::from(Vec::new(alloc)),
        exceptions: Seq::from(Vec::new(alloc)),
    };
    let events = starts(alloc, *started)?;
    let files = source(alloc, blob)?;
    let (events, files) = (events.as_slice(), files.as_slice());
    match form {
        Form::Listing => xcov(alloc, Level::Stmt, &obligations, 1, events, files),
        Form::Json => json(alloc, Level::Stmt, &obligations, 1, events, files),
    }
}

/// Statements at places, each a line and a column.
fn statements(alloc: Global, places: &[u64]) -> Result<Vec<StmtEntry>, AllocError> {
    let mut statements = Vec::new(alloc);
    for place in places.chunks_exact(2) {
        statements.push(StmtEntry {
            file: 0,
            line: narrow(place[0]),
            column: narrow(place[1]),
        })?;
    }
    Ok(statements)
}

/// The region from one line to another, or none.
fn regions(alloc: Global, from: u64, to: u64) -> Result<Vec<Region>, AllocError>
    ensures { IfOk result (λ regions. AreExplainedInUtf8 regions.items) }
{
    let mut regions = Vec::new(alloc);
    if from > 0 {
        regions.push(Region {
            file: 0,
            from_line: narrow(from),
            from_column: 4,
            to_line: narrow(to),
            to_column: 4,
            why: Bytes::from(Vec::from_slice(alloc, b"dead")?),
        })?;
    }
    Ok(regions)
}

/// The starts of so many statements.
fn starts(alloc: Global, count: u64) -> Result<Vec<Event>, AllocError> {
    let mut events = Vec::new(alloc);
    for statement in 0..count.min(1000) {
        events.push(Event::Start(StmtId(narrow(statement)), InstId(0)))?;
    }
    Ok(events)
}

/// The one file, with these bytes.
fn source(alloc: Global, bytes: &[u8]) -> Result<Vec<SourceFile>, AllocError>
    ensures { IfOk result (λ files. AreNamedInUtf8 files.items) }
{
    let mut files = Vec::new(alloc);
    files.push(SourceFile {
        name: Bytes::from(Vec::from_slice(alloc, b"p1.adb")?),
        bytes: Bytes::from(Vec::from_slice(alloc, bytes)?),
    })?;
    Ok(files)
}

/// A number, or the greatest of 32 bits if that is less.
fn narrow(number: u64) -> u32 {
    number.min(u64::from(u32::MAX)) as u32
}
