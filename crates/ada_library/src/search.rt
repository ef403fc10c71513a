//! Which units a unit leads to (Ada RM 2012, 10.1.2).

ghost use Rattle.std.specs.Prelude.{[], ◌∷◌, length, IfOk, OnOk};
ghost use Rattle.ada_rules.specs.Library as rules;
ghost use Rattle.ada_library.specs.Marking.{AreMarked, MarksNew};

use crate::marks::Marks;
use cov_base::Seq;
use std::alloc::{AllocError, Global};

/// Marks a unit, and adds it to those that are new where it was not marked yet.
fn mark_one(unit: u32, marks: &mut Marks, new: &mut Vec<u32>) -> Result<(), AllocError>
    ensures { OnOk result (MarksNew (unit ∷ []) marks.old marks.new new.old.items new.new.items) }
{
    if marks.has(unit) {
        return Ok(());
    }
    marks.put(unit)?;
    new.push(unit)?;
    Ok(())
}

/// Marks units, and adds those that were not marked yet to those that are new.
fn mark_all(units: &[u32], marks: &mut Marks, new: &mut Vec<u32>) -> Result<(), AllocError>
    ensures { OnOk result (MarksNew units.now marks.old marks.new new.old.items new.new.items) }
{
    for unit in units {
        mark_one(*unit, marks, new)?;
    }
    Ok(())
}

/// Marks the units that a unit names.
fn mark_named(
    graph: &[Seq<u32>],
    unit: u32,
    marks: &mut Marks,
    new: &mut Vec<u32>,
) -> Result<(), AllocError>
    ensures { OnOk result (MarksNew (rules.edges graph.now unit) marks.old marks.new new.old.items new.new.items) }
{
    match graph.get(unit as usize) {
        Some(named) => mark_all(named.as_slice(), marks, new),
        None => Ok(()),
    }
}

/// Marks the units that units name, and answers those that were not marked yet.
fn step(
    alloc: Global,
    graph: &[Seq<u32>],
    units: &[u32],
    marks: &mut Marks,
) -> Result<Vec<u32>, AllocError>
    ensures { IfOk result (λ new. MarksNew (rules.next_ones graph.now units.now) marks.old marks.new [] new.items) }
{
    let mut new = Vec::new(alloc);
    for unit in units {
        mark_named(graph, *unit, marks, &mut new)?;
    }
    Ok(new)
}

/// The units that a unit leads to, and itself: in each step those that the units which were new in the
/// last one name.
pub fn reached(alloc: Global, graph: &[Seq<u32>], from: u32) -> Result<Marks, AllocError>
    ensures { IfOk result (λ marks. AreMarked (rules.reached graph.now (length graph.now) (from ∷ [])) marks) }
{
    let mut marks = Marks::new(alloc);
    let mut latest = Vec::new(alloc);
    mark_one(from, &mut marks, &mut latest)?;
    for _ in graph {
        latest = step(alloc, graph, latest.as_slice(), &mut marks)?;
    }
    Ok(marks)
}
