//! Object files, and runs of objects.
//!
//! | Line | Asks |
//! |---|---|
//! | `object` | whether the latest blob is an object file, which is then written again, or why not |
//! | `input` | the numbers of the latest blob as an input file, or the line that is refused |
//! | `run OBJECT BUDGET` | a run on the latest blob as the input file: what it puts, how it ends, its trace |
//! | `words OBJECT ADDRESS..` | the kind of each word, where a block from there ends, the condition there |

ghost use Rattle.std.specs.Prelude.{◌<◌, ◌^◌, List, length};
ghost use Rattle.object_facts.specs.Object.{facts_of};
ghost use Rattle.object_format.specs.Checked.{IsSound};
ghost use Rattle.object_format.specs.Read.{HasObject};
ghost use Rattle.rv_semantics.specs.declared.stepped.Seen.{Seen};
ghost use Rattle.trace_record.specs.Recorded.{Records};
ghost use Rattle.transcript.specs.Pieces.{IsEnded};

use crate::reply::Reply;
use crate::words::{address, capped};
use cov_base::Failure;
use decision_map::{Condition, DecisionMap};
use object_format::{Object, read_object, what_is_read_can_be_written, write_object};
use rv32_emulator::{Ending, InputFault, parse_input, run};
use std::alloc::{AllocError, Global};
use trace_record::Recorder;

/// Whether what was written is what was read, in words.
pub(crate) fn sameness(written: &[u8], read: &[u8]) -> &'static str {
    if written == read {
        "the same file"
    } else {
        "another file"
    }
}

/// Puts how many words an object has, and whether its file is written again.
fn put_again(alloc: Global, out: &mut Reply, object: &Object, bytes: &[u8])
    requires { HasObject object.now }
{
    match write_object(alloc, object) {
        Ok(again) => {
            let written = sameness(again.as_slice(), bytes);
            out.put(format_args!("{} words, {written} again\n", object.text.len()));
        }
        Err(_) => out.lack_memory(),
    }
}

/// Puts what object a file is.
pub(crate) fn object(alloc: Global, out: &mut Reply, bytes: &[u8]) {
    what_is_read_can_be_written();
    match read_object(alloc, bytes) {
        Ok(object) => put_again(alloc, out, &object, bytes),
        Err(failure) => out.put_failure(failure),
    }
}

/// The numbers of an input file; none where it is refused, and the line with it.
fn input_of(alloc: Global, out: &mut Reply, bytes: &[u8]) -> Vec<i32> {
    match parse_input(alloc, bytes) {
        Ok(numbers) => numbers,
        Err(Failure::Fault(InputFault { line })) => {
            out.refuse(format_args!("input line {line} refused"));
            Vec::new(alloc)
        }
        Err(Failure::WantOfMemory) => {
            out.lack_memory();
            Vec::new(alloc)
        }
    }
}

/// Puts the numbers of an input file.
pub(crate) fn input(alloc: Global, out: &mut Reply, bytes: &[u8]) {
    let input = input_of(alloc, out, bytes);
    for number in input.as_slice() {
        out.put(format_args!("{number} "));
    }
    out.put("end of input\n");
}

/// Puts the name of an object's exception, by its place.
fn put_exception(out: &mut Reply, object: &Object, place: u32) {
    out.put("ending: exception ");
    if let Some(name) = object.obligations.exceptions.as_slice().get(place as usize) {
        for byte in name.as_slice() {
            out.put(char::from(*byte));
        }
    }
    out.put("\n");
}

/// Puts how a run ended, and its trace.
fn put_ending(out: &mut Reply, object: &Object, ending: Ending, trace: &[u8]) {
    match ending.number.checked_sub(1) {
        None => out.put("ending: return\n"),
        Some(place) => put_exception(out, object, place),
    }
    out.put(format_args!("instructions: {}\n", ending.count));
    out.put("run: ");
    out.put_hex(&trace[trace.len().saturating_sub(32)..]);
}

/// Puts how a run ended, and its trace.
fn put_ended(out: &mut Reply, object: &Object, recorder: &Recorder<'_>, ending: Ending)
    requires recorded { (run : List Seen) × Records recorder.now run × IsEnded (facts_of recorder.now.object) run }
    requires short_history { length recorder.now.history < 2 ^ 32 }
{
    match recorder.trace(ending.number) {
        Ok(trace) => put_ending(out, object, ending, trace.as_slice()),
        Err(_) => out.lack_memory(),
    }
}

/// Puts the words that a run put.
fn put_words(out: &mut Reply, put: &[i32]) {
    for word in put {
        out.put(format_args!("put: {word}\n"));
    }
}

/// Puts what a run of an object on an input leaves: what it put, and how it ended or why it did not.
fn put_run(
    alloc: Global,
    out: &mut Reply,
    object: &Object,
    input: &[i32],
    budget: u32,
) -> Result<(), AllocError>
    requires { IsSound object.now }
{
    let mut recorder = Recorder::new(alloc, object)?;
    let mut put = Vec::new(alloc);
    match run(alloc, object, input, budget, &mut recorder, &mut put) {
        Ok(ending) => {
            put_words(out, put.as_slice());
            put_ended(out, object, &recorder, ending);
        }
        Err(failure) => {
            put_words(out, put.as_slice());
            out.put_failure(failure);
        }
    }
    Ok(())
}

/// Puts what a run of an object on an input file leaves.
pub(crate) fn run_on(alloc: Global, out: &mut Reply, object: &Object, budget: &str, input: &[u8])
    requires { IsSound object.now }
{
    let budget = capped(out, budget);
    let input = input_of(alloc, out, input);
    let done = put_run(alloc, out, object, input.as_slice(), budget);
    out.note(done);
}

/// Puts what the map of an object says of a word.
fn put_word(out: &mut Reply, map: &DecisionMap<'_>, pc: u32) {
    out.put(format_args!("{:?}", map.kind(pc)));
    match map.block_end(pc) {
        Some(end) => out.put(format_args!(", block to {end:x}")),
        None => out.put(", no block"),
    }
    if map.needs_history(pc) {
        out.put(", needs history");
    }
    if let Some(condition) = map.condition(pc) {
        put_condition(out, condition);
    }
    out.put("\n");
}

/// Puts which condition a branch evaluates.
fn put_condition(out: &mut Reply, branch: Condition) {
    let Condition {
        decision,
        condition,
        when_taken,
        instance,
    } = branch;
    out.put(format_args!(", decision {} condition {}", decision.0, condition.0));
    out.put(format_args!(" {when_taken} instance {}", instance.0));
}

/// Puts what the map of an object says of the words at addresses.
pub(crate) fn words_at(out: &mut Reply, map: &DecisionMap<'_>, addresses: &str) {
    for word in addresses.split_ascii_whitespace() {
        out.put(format_args!("{word} "));
        let pc = address(out, word);
        put_word(out, map, pc);
    }
}
