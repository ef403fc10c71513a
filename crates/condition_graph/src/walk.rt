//! The walk of a vector through the nodes of a graph. Edges lead to nodes ahead, so that one pass
//! over the nodes walks a path.

ghost use Rattle.std.specs.Prelude.{◌≡◌, ◌<◌, ◌≤◌, length, map, IsTrue};
ghost use Rattle.condition_graph.specs.Target.{edges_of, place_of, outcome_at};
ghost use Rattle.cov_base.specs.Expr.{Expr};
ghost use Rattle.cov_base.specs.Graph.{graph};
ghost use Rattle.cov_base.specs.Marks.{bit};
ghost use Rattle.cov_base.specs.Path.{IsPathVector, passed, walked};

use crate::bits::has;
use crate::node::{Exits, Next, Step};
use crate::tree::{is_node, with_step};
use cov_base::{CondIx, Vector};

/// Where a walk stands that was at `at`, once it has come to the node of this number or passed it
/// by.
fn after(exits: Exits, number: u8, value: u32, at: Next) -> Next
    requires { number < 32 }
    ensures { place_of result ≡ passed number (edges_of exits) (bit value) (place_of at) }
{
    match at {
        Next::Node(node) if node.0 == number => exits.to(has(value, number)),
        _ => at,
    }
}

/// The outcome at which the walk ends that takes at each node the edge of its bit in `value`.
pub(crate) fn end_of_walk(nodes: &[Exits], value: u32) -> bool
    requires { length nodes.now ≤ 32 }
    ensures { result ≡ outcome_at (walked (map edges_of nodes.now) (bit value)) }
{
    let mut at = Next::Node(CondIx(0));
    for (number, exits) in nodes.iter().enumerate() {
        at = after(*exits, number as u8, value, at);
    }
    match at {
        Next::Node(_) => false,
        Next::Leaf(outcome) => outcome,
    }
}

/// Whether a vector is that of a path from the root to an outcome: the walk by its values is that
/// path, if there is one.
pub(crate) fn is_path(nodes: &[Exits], v: Vector) -> bool
    requires { length nodes.now ≤ 32 }
    ensures path { IsTrue result → IsPathVector (map edges_of nodes.now) v }
    ensures each { (e : Expr) → map edges_of nodes.now ≡ graph e → IsPathVector (map edges_of nodes.now) v → IsTrue result }
{
    let mut at = Next::Node(CondIx(0));
    let mut taken = Vector { seen: 0, value: 0 };
    for (number, exits) in nodes.iter().enumerate() {
        let node = CondIx(number as u8);
        if !is_node(at, node) {
            continue;
        }
        let value = has(v.value, node.0);
        taken = with_step(taken, Step { node, value });
        at = exits.to(value);
    }
    match at {
        Next::Node(_) => false,
        Next::Leaf(_) => taken == v,
    }
}
