//! Traces beside their objects, and what they cover.
//!
//! | Line | Asks |
//! |---|---|
//! | `trace` | what the latest blob holds as a trace file, or why it is none |
//! | `fit OBJECT` | whether the latest blob can be a trace of the object |
//! | `events OBJECT TRACE..` | how many runs the traces are, and their events, each once |

ghost use Rattle.std.specs.Prelude.{◌≡◌};
ghost use Rattle.object_format.specs.Checked.{IsSound};

use crate::blobs::Blobs;
use crate::reply::Reply;
use cov_base::Event;
use coverage_set::{Coverage, Join};
use decision_map::DecisionMap;
use object_format::Object;
use std::alloc::Global;
use trace_format::{Block, HistoryEntry, TraceView};

/// Puts a block.
pub(crate) fn put_block(out: &mut Reply, block: Block) {
    let Block { start, last, flags } = block;
    out.put(format_args!("block {start:x} to {last:x} flags {flags}\n"));
}

/// Puts an entry of a history.
pub(crate) fn put_entry(out: &mut Reply, entry: HistoryEntry) {
    let HistoryEntry { address, x8, edge } = entry;
    out.put(format_args!("entry {address:x} frame {x8:x} edge {edge}\n"));
}

/// Puts what a trace holds.
fn put_trace(out: &mut Reply, view: &TraceView<'_>) {
    out.put(format_args!("ending {}\n", view.ending()));
    for at in 0..view.blocks() {
        put_block(out, view.block(at));
    }
    for at in 0..view.history() {
        put_entry(out, view.entry(at));
    }
}

/// Puts what a trace file holds.
pub(crate) fn trace(out: &mut Reply, bytes: &[u8]) {
    match TraceView::view(bytes) {
        Err(fault) => out.put(format_args!("{fault}\n")),
        Ok(view) => put_trace(out, &view),
    }
}

/// Puts whether a trace file can be one of the object of a map.
pub(crate) fn fit(out: &mut Reply, map: &DecisionMap<'_>, bytes: &[u8]) {
    match TraceView::view(bytes) {
        Err(fault) => out.refuse(format_args!("trace: {fault}")),
        Ok(view) => match map.fit(&view) {
            Err(fault) => out.put(format_args!("{fault}\n")),
            Ok(()) => out.put("fits\n"),
        },
    }
}

/// Adds a trace to a coverage, or refuses the line where it can't be one of the object.
fn cover(out: &mut Reply, map: &DecisionMap<'_>, coverage: &mut Coverage<'_>, view: &TraceView<'_>)
    requires sound { IsSound map.now }
    requires object { map.now ≡ coverage.old.object }
    ensures { coverage.new.object ≡ coverage.old.object }
{
    match map.fit(view) {
        Err(fault) => out.refuse(format_args!("trace: {fault}")),
        Ok(()) => {
            if let Err(failure) = coverage.add_trace(map, view) {
                out.refuse_file("trace", failure);
            }
        }
    }
}

/// Joins what one trace file of an object covers to what others do.
fn join_trace<'a>(
    alloc: Global,
    out: &mut Reply,
    map: &DecisionMap<'_>,
    object: &'a Object,
    trace: &[u8],
    all: &mut Coverage<'a>,
)
    requires sound { IsSound map.now }
    requires map { map.now ≡ object.now }
    requires all { all.old.object ≡ object.now }
    ensures { all.new.object ≡ all.old.object }
{
    match TraceView::view(trace) {
        Err(fault) => out.refuse(format_args!("trace: {fault}")),
        Ok(view) => {
            let mut one = Coverage::new(alloc, object);
            cover(out, map, &mut one, &view);
            let joined = all.join(&one);
            out.note(joined);
        }
    }
}

/// Joins what each of the named traces of an object covers. Each is covered alone.
fn join_traces<'a>(
    alloc: Global,
    blobs: &Blobs,
    out: &mut Reply,
    map: &DecisionMap<'_>,
    object: &'a Object,
    names: &str,
    all: &mut Coverage<'a>,
)
    requires sound { IsSound map.now }
    requires map { map.now ≡ object.now }
    requires all { all.old.object ≡ object.now }
    ensures { all.new.object ≡ all.old.object }
{
    for name in names.split_ascii_whitespace() {
        let trace = blobs.named(out, name);
        join_trace(alloc, out, map, object, trace, all);
    }
}

/// Puts an event.
pub(crate) fn put_event(out: &mut Reply, event: Event) {
    match event {
        Event::Start(statement, instance) => {
            out.put(format_args!("start {} instance {}\n", statement.0, instance.0));
        }
        Event::Done(decision, instance, vector) => {
            out.put(format_args!("done {} instance {} ", decision.0, instance.0));
            out.put(format_args!("seen {:b} true {:b}\n", vector.seen, vector.value));
        }
    }
}

/// Puts how many runs were covered, and their events.
pub(crate) fn put_coverage(out: &mut Reply, coverage: &Coverage<'_>) {
    match coverage.events() {
        Ok(events) => {
            out.put(format_args!("{} runs\n", coverage.runs()));
            for event in events.as_slice() {
                put_event(out, *event);
            }
        }
        Err(_) => out.lack_memory(),
    }
}

/// Puts the events of traces of an object.
pub(crate) fn events(
    alloc: Global,
    blobs: &Blobs,
    out: &mut Reply,
    object: &Object,
    map: &DecisionMap<'_>,
    names: &str,
)
    requires sound { IsSound map.now }
    requires map { map.now ≡ object.now }
{
    let mut all = Coverage::new(alloc, object);
    join_traces(alloc, blobs, out, map, object, names, &mut all);
    put_coverage(out, &all);
}
