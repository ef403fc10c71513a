//! Traces that are read in pieces.
//!
//! | Line | Asks |
//! |---|---|
//! | `portion FROM MOST` | that part of the latest blob, and the part of a file that isn't there |
//! | `pieces MOST CALL..` | what a reader gives of the latest blob, whose parts have at most so many bytes, where the reads of these numbers fail |
//! | `fitting OBJECT MOST` | whether the latest blob, so read, can be a trace of the object |
//! | `added OBJECT MOST CALL..` | what a coverage of the object has once the latest blob, so read, is added |
//! | `rebuilt OBJECT MORE` | the evaluations of the latest blob's history, where there is room for so many at first |

ghost use Rattle.std.specs.Prelude.{◌≡◌};
ghost use Rattle.object_format.specs.Checked.{IsSound};

use crate::reply::Reply;
use crate::runs::{put_block, put_coverage, put_entry, put_event};
use crate::words::{capped, number, numbers, split_word};
use cov_base::Failure;
use cov_io::{Entry as File, FileFault, Files, MemFiles};
use coverage_set::Coverage;
use decision_map::{DecisionMap, FitState};
use object_format::Object;
use std::alloc::Global;
use trace_format::{Block, Entry, HistoryEntry, TraceReader, TraceView};
use vector_rebuild::Rebuild;

/// The name of the file that is read.
const NAME: &str = "trace";

/// Files in memory, of which a part never has more than so many bytes.
#[derive(Drop)]
struct Cut {
    files: MemFiles,
    most: usize,
}

impl Files for Cut {
    ghost held = { λ cut. ⟦<MemFiles as Files>⟧.held cut.files };

    ghost reads_failed = { λ cut. ⟦<MemFiles as Files>⟧.reads_failed cut.files };

    ghost writes_failed = { λ cut. ⟦<MemFiles as Files>⟧.writes_failed cut.files };

    fn read(&mut self, name: &str, into: &mut Vec<u8>) -> Result<(), FileFault> {
        self.files.read(name, into)
    }

    fn read_part(
        &mut self,
        name: &str,
        from: u64,
        most: usize,
        into: &mut Vec<u8>,
    ) -> Result<(), FileFault> {
        let fewer = most.min(self.most.max(1));
        self.files.read_part(name, from, fewer, into)
    }

    fn write(&mut self, name: &str, bytes: &[u8]) -> Result<(), FileFault> {
        self.files.write(name, bytes)
    }

    fn read_faults(&self) -> u64 {
        self.files.read_faults()
    }

    fn write_faults(&self) -> u64 {
        self.files.write_faults()
    }
}

/// Files that hold these bytes as the trace. The words tell how many bytes a part has at most, and the
/// numbers of the reads that fail.
fn cut_by(alloc: Global, out: &mut Reply, bytes: &[u8], words: &str) -> Cut {
    let (most, calls) = split_word(words);
    let most = number(out, most);
    let failing = numbers(alloc, out, calls);
    let mut name = String::new(alloc);
    out.note(name.push_str(NAME));
    let mut held = Vec::new(alloc);
    out.note(held.extend_from_slice(bytes));
    let mut contents = Vec::new(alloc);
    out.note(contents.push(File { name, bytes: held }));
    let files = MemFiles::new(contents, failing);
    Cut { files, most }
}

/// Puts an entry of a trace.
fn put_given(out: &mut Reply, entry: Entry) {
    match entry {
        Entry::Head { ending, .. } => out.put(format_args!("ending {ending}\n")),
        Entry::Block { start, last, flags } => put_block(out, Block { start, last, flags }),
        Entry::History { address, x8, edge } => put_entry(out, HistoryEntry { address, x8, edge }),
        Entry::Close { digest } => {
            out.put("closed by ");
            out.put_hex(digest.as_slice());
        }
    }
}

/// Puts what a reader gives next: an entry, this text at the end, or a fault. Says whether it is an entry.
fn put_next(out: &mut Reply, files: &mut Cut, reader: &mut TraceReader, end: &str) -> bool {
    match reader.next(files) {
        Ok(Some(entry)) => {
            put_given(out, entry);
            true
        }
        Ok(None) => {
            out.put(end);
            false
        }
        Err(failure) => {
            out.put_failure(failure);
            false
        }
    }
}

/// Puts what a reader gives, up to the end or to a fault, and what it answers when it is asked again.
fn put_entries(out: &mut Reply, files: &mut Cut, reader: &mut TraceReader) {
    for _ in 0..u64::MAX {
        if !put_next(out, files, reader, "") {
            break;
        }
    }
    put_next(out, files, reader, "end\n");
}

/// Puts what a reader gives of the latest blob.
pub(crate) fn pieces(alloc: Global, out: &mut Reply, words: &str, blob: &[u8]) {
    let mut files = cut_by(alloc, out, blob, words);
    match TraceReader::open(alloc, &mut files, NAME) {
        Ok(mut reader) => put_entries(out, &mut files, &mut reader),
        Err(failure) => out.put_failure(failure),
    }
}

/// Puts a part of a file, or that it could not be read.
fn put_portion(out: &mut Reply, read: Result<(), FileFault>, part: &[u8]) {
    match read {
        Ok(()) => out.put_hex(part),
        Err(FileFault::Failed) => out.put("failed\n"),
        Err(FileFault::NoMemory) => out.lack_memory(),
    }
}

/// Puts a part of the latest blob.
pub(crate) fn portion(alloc: Global, out: &mut Reply, words: &str, blob: &[u8]) {
    let (from, most) = split_word(words);
    let mut files = cut_by(alloc, out, blob, most);
    let mut part = Vec::new(alloc);
    let from = number(out, from) as u64;
    let most = files.most.max(1);
    let read = files.read_part(NAME, from, most, &mut part);
    put_portion(out, read, part.as_slice());
    let read = files.read_part("another", from, 1, &mut part);
    put_portion(out, read, part.as_slice());
}

/// Puts what the checks beside the object find of the entries of a trace.
fn put_fitting(
    out: &mut Reply,
    files: &mut Cut,
    reader: &mut TraceReader,
    state: &mut FitState<'_>,
) {
    for _ in 0..u64::MAX {
        match reader.next(files) {
            Ok(Some(entry)) => state.see(&entry),
            Ok(None) => break,
            Err(failure) => return out.put_failure(failure),
        }
    }
    match state.end() {
        Ok(()) => out.put("fits\n"),
        Err(fault) => out.put(format_args!("{fault}\n")),
    }
}

/// Puts whether the latest blob, read in pieces, can be a trace of the object of a map.
pub(crate) fn fitting(
    alloc: Global,
    out: &mut Reply,
    map: &DecisionMap<'_>,
    words: &str,
    blob: &[u8],
) {
    let mut files = cut_by(alloc, out, blob, words);
    match TraceReader::open(alloc, &mut files, NAME) {
        Ok(mut reader) => match FitState::new(alloc, map) {
            Ok(mut state) => put_fitting(out, &mut files, &mut reader, &mut state),
            Err(_) => out.lack_memory(),
        },
        Err(failure) => out.refuse_file("trace", failure),
    }
}

/// Puts what a coverage of an object has once the latest blob, read in pieces, is added to it.
pub(crate) fn added(
    alloc: Global,
    out: &mut Reply,
    object: &Object,
    map: &DecisionMap<'_>,
    words: &str,
    blob: &[u8],
)
    requires sound { IsSound map.now }
    requires map { map.now ≡ object.now }
{
    let mut coverage = Coverage::new(alloc, object);
    let mut files = cut_by(alloc, out, blob, words);
    match TraceReader::open(alloc, &mut files, NAME) {
        Ok(mut reader) => {
            if let Err(failure) = coverage.add_read(map, &mut files, &mut reader) {
                out.put_failure(failure);
            }
            put_coverage(out, &coverage);
        }
        Err(failure) => out.refuse_file("trace", failure),
    }
}

/// Feeds an entry of a history, if its executions are kept, and puts the evaluation that it completes.
fn put_fed(out: &mut Reply, map: &DecisionMap<'_>, rebuild: &mut Rebuild, entry: HistoryEntry)
    requires { IsSound map.now }
{
    if rebuild.fed() == u32::MAX || !map.needs_history(entry.address) {
        out.refuse("a vector of no path");
        return;
    }
    match rebuild.feed(map, entry) {
        Ok(Some(event)) => put_event(out, event),
        Ok(None) => {}
        Err(failure) => out.put_failure(failure),
    }
}

/// Puts the evaluations of a trace's history, where there is room for so many entries at first.
fn put_rebuilt(
    alloc: Global,
    out: &mut Reply,
    map: &DecisionMap<'_>,
    view: &TraceView<'_>,
    more: u32,
)
    requires { IsSound map.now }
{
    let mut rebuild = Rebuild::new(alloc);
    out.note(rebuild.reserve(more));
    for at in 0..view.history() {
        put_fed(out, map, &mut rebuild, view.entry(at));
    }
}

/// Puts the evaluations of the latest blob's history, where there is room for some entries at first.
pub(crate) fn rebuilt(
    alloc: Global,
    out: &mut Reply,
    map: &DecisionMap<'_>,
    words: &str,
    blob: &[u8],
)
    requires { IsSound map.now }
{
    match TraceView::view(blob) {
        Ok(view) => {
            let more = capped(out, words).min(1 << 16);
            put_rebuilt(alloc, out, map, &view, more);
        }
        Err(fault) => out.refuse(format_args!("trace: {fault}")),
    }
}
