//! The edges by which the nodes of a graph are entered: in a tree, one for each node but the root.

ghost use Rattle.std.specs.Prelude.{◌≡◌, ◌<◌, ◌≤◌, ◌^◌, ◌∷◌, length, map, bit_or, IfSome, if◌then◌else◌};
ghost use Rattle.cov_base.specs.Path.{vector_of};
ghost use Rattle.std.specs.Option.{option_map};
ghost use Rattle.condition_graph.specs.Target.{edges_of, place_of};
ghost use Rattle.condition_graph.specs.Entry.{step_of, is_node, entry_from, is_first, all_first, climbed};

use crate::node::{Exits, Next, Step};
use cov_base::{CondIx, Vector};

/// Whether a place is the node of a condition.
pub(crate) fn is_node(place: Next, node: CondIx) -> bool
    ensures { result ≡ is_node (place_of place) node.0 }
{
    match place {
        Next::Node(other) => other.0 == node.0,
        Next::Leaf(_) => false,
    }
}

/// The first edge that leads to a node.
pub(crate) fn entry(nodes: &[Exits], to: CondIx) -> Option<Step>
    requires { length nodes.now ≤ 32 }
    ensures first { option_map step_of result ≡ entry_from 0 (map edges_of nodes.now) to.0 }
    ensures within { IfSome result (λ step. step.node.0 < length nodes.now) }
{
    for (number, exits) in nodes.iter().enumerate() {
        let node = CondIx(number as u8);
        if is_node(exits.on_true, to) {
            return Some(Step { node, value: true });
        }
        if is_node(exits.on_false, to) {
            return Some(Step { node, value: false });
        }
    }
    None
}

/// Whether an edge leads to a leaf, or is the first one that leads to its node.
fn is_first(nodes: &[Exits], node: CondIx, value: bool, place: Next) -> bool
    requires { length nodes.now ≤ 32 }
    ensures { result ≡ is_first (map edges_of nodes.now) node.0 value (place_of place) }
{
    match place {
        Next::Leaf(_) => true,
        Next::Node(to) => match entry(nodes, to) {
            Some(step) => step.node.0 == node.0 && step.value == value,
            None => false,
        },
    }
}

/// Whether no node is entered by two edges: each edge that leads to a node is the first one that
/// does.
pub(crate) fn are_entered_once(nodes: &[Exits]) -> bool
    requires { length nodes.now ≤ 32 }
    ensures { result ≡ all_first (map edges_of nodes.now) 0 (map edges_of nodes.now) }
{
    for (number, exits) in nodes.iter().enumerate() {
        let node = CondIx(number as u8);
        if !is_first(nodes, node, true, exits.on_true)
            || !is_first(nodes, node, false, exits.on_false)
        {
            return false;
        }
    }
    true
}

/// The vector with one step more.
pub(crate) fn with_step(v: Vector, step: Step) -> Vector
    requires { step.node.0 < 32 }
    ensures { result ≡ record {
      seen = bit_or v.seen (2 ^ step.node.0);
      value = if step.value then bit_or v.value (2 ^ step.node.0) else v.value;
    } }
{
    let bit = 1 << step.node.0;
    Vector {
        seen: v.seen | bit,
        value: if step.value { v.value | bit } else { v.value },
    }
}

/// The vector of the steps that lead to a node by first entries, of which there are so many at
/// most.
fn vector_to(nodes: &[Exits], to: CondIx, at_most: u8) -> Vector
    requires { length nodes.now ≤ 32 }
    ensures { result ≡ vector_of (climbed at_most (map edges_of nodes.now) to.0) }
{
    if at_most > 0
        && let Some(step) = entry(nodes, to)
    {
        with_step(vector_to(nodes, step.node, at_most - 1), step)
    } else {
        Vector { seen: 0, value: 0 }
    }
}

/// The vector of the steps that lead to a node by first entries, and leave it by a value.
pub(crate) fn vector_by(nodes: &[Exits], node: CondIx, value: bool) -> Vector
    requires few { length nodes.now ≤ 32 }
    requires within { node.0 < length nodes.now }
    ensures { result ≡ vector_of (step_of (record { node = node; value = value })
        ∷ climbed node.0 (map edges_of nodes.now) node.0) }
{
    with_step(vector_to(nodes, node, node.0), Step { node, value })
}
