//! What a run of an image shows.

ghost use Rattle.std.specs.Prelude.{◌+◌, ◌*◌, ◌≤◌, IsTrue, length};
ghost use Rattle.rv_semantics.specs.Layout.{memory_bytes};

use line_table::RoleKind;
use linker::Image;
use rv_machine::{Machine, Seen, Stepped};
use rv_semantics::{MEMORY_BYTES, TEXT_START};
use std::alloc::{AllocError, Global};

/// What an executed instruction tells.
#[derive(Clone, Copy)]
pub(crate) enum Told {
    /// A statement starts.
    Starts {
        statement: u32,
    },
    /// A condition of a decision has a value.
    Decides {
        decision: u32,
        condition: u8,
        holds: bool,
    },
}

/// What a run leaves: the number that it ended with, where it neither trapped nor went over its
/// budget; the words that were put; what its instructions told, in order; and how many were executed.
pub(crate) struct Shown {
    pub ending: Option<u32>,
    pub put: Vec<i32>,
    pub told: Vec<Told>,
    pub executed: u32,
}

// Written out: a derived drop is proved anew in each crate above.
impl Drop for Shown {
    fn drop(self) {
        let Shown {
            ending: _,
            put: _,
            told: _,
            executed: _,
        } = self;
    }
}

/// Runs an image that has so many exceptions on an input, for at most `budget` instructions. None
/// where the image does not lie in memory.
pub(crate) fn run(
    alloc: Global,
    image: &Image,
    exceptions: usize,
    input: &[i32],
    budget: u32,
) -> Result<Option<Shown>, AllocError> {
    let text = image.text.as_slice();
    let init = image.init.as_slice();
    if !lies_in_memory(TEXT_START, text) || !lies_in_memory(image.init_at, init) {
        return Ok(None);
    }
    let mut machine = Machine::of_image(alloc, image.entry, text, image.init_at, init, exceptions)?;
    let mut shown = Shown {
        ending: None,
        put: Vec::new(alloc),
        told: Vec::new(alloc),
        executed: 0,
    };
    walk(image, &mut machine, input, budget, &mut shown)?;
    Ok(Some(shown))
}

/// Adds what a machine with the text of an image shows.
fn walk(
    image: &Image,
    machine: &mut Machine<'_>,
    input: &[i32],
    budget: u32,
    shown: &mut Shown,
) -> Result<(), AllocError> {
    let mut unread = input.iter();
    for done in 0..budget {
        let stepped = machine.step();
        let Some(seen) = seen_in(stepped) else {
            break;
        };
        shown.executed = done + 1;
        if let Some(event) = told_at(image, seen) {
            shown.told.push(event)?;
        }
        match stepped {
            Stepped::Get(_) => machine.give(unread.next().copied()),
            Stepped::Put(_, word) => shown.put.push(word)?,
            Stepped::End(_, number) => {
                shown.ending = Some(number);
                break;
            }
            Stepped::Went(_) | Stepped::Trap { .. } => {}
        }
    }
    Ok(())
}

/// Whether words that stand from an address on lie in memory.
fn lies_in_memory(address: u32, words: &[u32]) -> bool
    ensures { IsTrue result → address + 4 * length words.now ≤ memory_bytes }
{
    match MEMORY_BYTES.checked_sub(address) {
        Some(bytes) => words.len() <= (bytes / 4) as usize,
        None => false,
    }
}

/// What was seen of a step, unless it trapped.
fn seen_in(stepped: Stepped) -> Option<Seen> {
    match stepped {
        Stepped::Went(seen) | Stepped::Get(seen) | Stepped::Put(seen, _) | Stepped::End(seen, _) =>
            Some(seen),
        Stepped::Trap { .. } => None,
    }
}

/// What an executed instruction tells by its row or its role.
fn told_at(image: &Image, seen: Seen) -> Option<Told> {
    if let Some(row) = image.rows.at(seen.pc) {
        return Some(Told::Starts {
            statement: row.statement.0,
        });
    }
    let role = image.roles.at(seen.pc)?;
    if role.kind != RoleKind::CONDITION {
        return None;
    }
    Some(Told::Decides {
        decision: role.decision.0,
        condition: role.condition.0,
        holds: seen.edge? == (role.value == 1),
    })
}
