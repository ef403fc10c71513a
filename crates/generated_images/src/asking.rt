//! The steps, and what those that ask are answered.

use crate::draft::{Draft, EXCEPTIONS};
use crate::fault::{Answer, StepFault};
use crate::links::can_be_linked;
use crate::operations::operation;
use crate::runs::{Shown, Told, run};
use crate::words::{number, numbers, split_word};
use cov_base::Failure;
use kernel_ir::{Edge, Op};
use std::alloc::{AllocError, Global};

/// More than each of the runs executes.
const BUDGET: u32 = 100_000;

/// Takes the steps of a line, and adds to `out` what they are answered.
pub fn answer(alloc: Global, draft: &mut Draft, out: &mut String, line: &str) -> Answer {
    if line.is_empty() || line.starts_with('#') {
        return Ok(());
    }
    for step in line.split("; ") {
        take_step(alloc, draft, out, step)?;
    }
    Ok(())
}

/// Takes a step.
fn take_step(alloc: Global, draft: &mut Draft, out: &mut String, step: &str) -> Answer {
    let (name, words) = split_word(step);
    if name == "node" {
        return take_node(draft, words);
    }
    let numbers = numbers(alloc, words)?;
    take_numbered(alloc, draft, out, name, numbers.as_slice())
}

/// Takes a step of a condition.
fn take_node(draft: &mut Draft, words: &str) -> Answer {
    let (slot, edges) = split_word(words);
    let (on_true, on_false) = split_word(edges);
    let slot = number(slot)?.cast_unsigned();
    draft.condition(slot, edge(on_true)?, edge(on_false)?)
}

/// Where an edge leads.
fn edge(word: &str) -> Result<Edge, Failure<StepFault>> {
    match word {
        "true" => Ok(Edge::Leaf(true)),
        "false" => Ok(Edge::Leaf(false)),
        _ => Ok(Edge::NodeAfter(number(word)?.cast_unsigned())),
    }
}

/// Takes a step that has numbers alone.
fn take_numbered(
    alloc: Global,
    draft: &mut Draft,
    out: &mut String,
    name: &str,
    numbers: &[i32],
) -> Answer {
    if let Some(simple) = operation(name, numbers) {
        return draft.add_simple(simple);
    }
    match name {
        "code" => draft.begin(alloc),
        "exit" => draft.add(Op::Exit),
        "returns" => draft.add(Op::Returns),
        "forever" => draft.repeat(),
        "decide" => take_decision(alloc, draft, numbers),
        "call" | "choose" | "catch" | "body" => take_with_one(draft, name, numbers),
        _ => ask(alloc, draft, out, name, numbers),
    }
}

/// Takes a step of a decision.
fn take_decision(alloc: Global, draft: &mut Draft, numbers: &[i32]) -> Answer {
    match *numbers {
        [decision, slot] => draft.decide(alloc, decision.cast_unsigned(), slot.cast_unsigned()),
        _ => Err(Failure::Fault(StepFault::Number)),
    }
}

/// Takes a step that holds one number beside code.
fn take_with_one(draft: &mut Draft, name: &str, numbers: &[i32]) -> Answer {
    let [number] = *numbers else {
        return Err(Failure::Fault(StepFault::Number));
    };
    let number = number.cast_unsigned();
    match name {
        "call" => draft.add(Op::Call { body: number }),
        "choose" => draft.choose(number),
        "catch" => draft.catch(number),
        _ => draft.end_body(number),
    }
}

/// Adds what a step that asks is answered.
fn ask(alloc: Global, draft: &mut Draft, out: &mut String, name: &str, numbers: &[i32]) -> Answer {
    match name {
        "kernel" => draft.link(alloc),
        "run" => add_run(alloc, draft, out, numbers),
        "count" => add_count(alloc, draft, out, numbers),
        "no_pieces" => add_no_pieces(alloc, out),
        _ => Err(Failure::Fault(StepFault::Step)),
    }
}

/// What a run of the latest kernel on an input shows.
fn shown(alloc: Global, draft: &Draft, input: &[i32]) -> Result<Shown, Failure<StepFault>> {
    let image = draft.image()?;
    match run(alloc, image, EXCEPTIONS as usize, input, BUDGET)? {
        Some(shown) => Ok(shown),
        None => Err(Failure::Fault(StepFault::Image)),
    }
}

/// Adds what a run of the latest kernel puts and tells, and its ending.
fn add_run(alloc: Global, draft: &Draft, out: &mut String, input: &[i32]) -> Answer {
    let shown = shown(alloc, draft, input)?;
    add_shown(out, &shown)?;
    Ok(())
}

/// Adds the ending of a run of the latest kernel, and how many instructions it executes.
fn add_count(alloc: Global, draft: &Draft, out: &mut String, input: &[i32]) -> Answer {
    let Shown {
        ending,
        executed,
        ..
    } = shown(alloc, draft, input)?;
    add_ending(out, ending)?;
    writeln!(out, "{executed} instructions")?;
    Ok(())
}

/// Adds what a run puts and tells, and its ending.
fn add_shown(out: &mut String, shown: &Shown) -> Result<(), AllocError> {
    add_words(out, shown.put.as_slice())?;
    add_all_told(out, shown.told.as_slice())?;
    add_ending(out, shown.ending)
}

/// Adds whether no pieces can be linked.
fn add_no_pieces(alloc: Global, out: &mut String) -> Answer {
    let can = can_be_linked(alloc, &[])?;
    writeln!(out, "can be linked: {can}")?;
    Ok(())
}

/// Adds words that were put.
fn add_words(out: &mut String, words: &[i32]) -> Result<(), AllocError> {
    for word in words {
        writeln!(out, "put {word}")?;
    }
    Ok(())
}

/// Adds what instructions told.
fn add_all_told(out: &mut String, all: &[Told]) -> Result<(), AllocError> {
    for told in all {
        add_told(out, *told)?;
    }
    Ok(())
}

/// Adds what an instruction told.
fn add_told(out: &mut String, told: Told) -> Result<(), AllocError> {
    match told {
        Told::Starts { statement } => writeln!(out, "start {statement}"),
        Told::Decides {
            decision,
            condition,
            holds,
        } => writeln!(out, "decision {decision} condition {condition} {holds}"),
    }
}

/// Adds the number of an ending.
fn add_ending(out: &mut String, ending: Option<u32>) -> Result<(), AllocError> {
    match ending {
        Some(number) => writeln!(out, "ending {number}"),
        None => out.push_str("no ending\n"),
    }
}
