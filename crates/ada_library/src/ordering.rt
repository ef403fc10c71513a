//! The order in which units depend on each other (Ada RM 2012, 10.2).

ghost use Rattle.std.specs.Prelude.{◌≡◌, IfOk};
ghost use Rattle.std.specs.List.{list_all};
ghost use Rattle.ada_rules.specs.Library as rules;
ghost use Rattle.ada_library.specs.Marking.{is_marked};
ghost use Rattle.ada_library.specs.Depending.{IsReady, IsPicked};

use crate::marks::Marks;
use cov_base::Seq;
use std::alloc::{AllocError, Global};
use std::collections::VecDeque;

/// Whether all of these units are marked.
fn are_marked(marks: &Marks, units: &[u32]) -> bool
    ensures { result ≡ list_all (is_marked marks.now) units.now }
{
    units.iter().all(|unit| marks.has(*unit))
}

/// Whether all units that a unit names stand in the order, whose units are marked.
fn is_ready(graph: &[Seq<u32>], done: &Marks, unit: u32) -> bool
    ensures { IsReady graph.now done.now unit result }
{
    match graph.get(unit as usize) {
        Some(named) => are_marked(done, named.as_slice()),
        None => true,
    }
}

/// Takes the first unit out of those that are left that names only units of the order. The order's
/// units are marked.
fn pick(graph: &[Seq<u32>], done: &Marks, rest: &mut VecDeque<u32>) -> Option<u32>
    ensures { IsPicked graph.now done.now rest.old.items result rest.new.items }
{
    for index in 0..rest.len() {
        if is_ready(graph, done, rest[index]) {
            return rest.remove(index);
        }
    }
    None
}

/// Units in the order in which they depend on each other, from these on. Those on a cycle, and those
/// that lead to one, are not in it.
pub fn dependency_order(
    alloc: Global,
    graph: &[Seq<u32>],
    mut rest: VecDeque<u32>,
) -> Result<Vec<u32>, AllocError>
    ensures { IfOk result (λ order. order.items ≡ rules.dependency_order graph.now rest.items) }
{
    let mut order = Vec::new(alloc);
    let mut done = Marks::new(alloc);
    while let Some(unit) = pick(graph, &done, &mut rest) {
        done.put(unit)?;
        order.push(unit)?;
    }
    Ok(order)
}
