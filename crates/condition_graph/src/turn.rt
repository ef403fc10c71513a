//! The conditions of a vector that can still turn its outcome: they were evaluated, and from their
//! other edge the other outcome can be reached over conditions that were not evaluated. One pass
//! over the nodes, from the last to the first, finds them, since edges lead ahead.

ghost use Rattle.std.specs.Prelude.{◌≡◌, ◌<◌, ◌≤◌, ◌&&◌, ◌||◌, ℕ, not, nat_eq, length, map, if◌then◌else◌};
ghost use Rattle.condition_graph.specs.Target.{edges_of, place_of};
ghost use Rattle.cov_base.specs.Graph.{target};
ghost use Rattle.cov_base.specs.Marks.{bit, marks};
ghost use Rattle.decision_meaning.specs.Turn.{reaches, can_turn};

use crate::bits::{has, with};
use crate::node::{Exits, Next};
use cov_base::Vector;

/// Bit by bit: the nodes that were not evaluated and from which the other outcome can be reached,
/// and the conditions that can turn the outcome.
#[derive(Clone, Copy)]
struct Found {
    leading: u32,
    turning: u32,
}

/// Whether the outcome that was not given can be reached from a place.
fn is_reached(place: Next, leading: u32, given: bool) -> bool
    ensures { result ≡ reaches (bit leading) given (place_of place) }
{
    match place {
        Next::Node(node) => node.0 < 32 && has(leading, node.0),
        Next::Leaf(end) => end != given,
    }
}

/// What is known once the node of this number is looked at, after those behind it.
fn with_node(found: Found, exits: Exits, number: u8, v: Vector, given: bool) -> Found
    requires { number < 32 }
    ensures leading { (k : ℕ) → bit result.leading k ≡ (if nat_eq k number
        then not (bit v.seen number) && (reaches (bit found.leading) given (place_of exits.on_true)
        || reaches (bit found.leading) given (place_of exits.on_false))
        else bit found.leading k) }
    ensures turning { (c : ℕ) → bit result.turning c ≡ (if nat_eq c number
        then bit v.seen number && reaches (bit found.leading) given (target (edges_of exits) (not (bit v.value number)))
        else bit found.turning c) }
{
    let is_seen = has(v.seen, number);
    let other = exits.to(!has(v.value, number));
    let reached = is_reached(other, found.leading, given);
    let on_true = is_reached(exits.on_true, found.leading, given);
    let on_false = is_reached(exits.on_false, found.leading, given);
    Found {
        leading: with(found.leading, number, !is_seen && (on_true || on_false)),
        turning: with(found.turning, number, is_seen && reached),
    }
}

/// The conditions of a vector that can still turn its outcome, which is given.
pub(crate) fn turning_conditions(nodes: &[Exits], v: Vector, given: bool) -> u32
    requires { length nodes.now ≤ 32 }
    ensures { (c : ℕ) → bit result c ≡ can_turn (map edges_of nodes.now) (marks v) given c }
{
    let mut found = Found {
        leading: 0,
        turning: 0,
    };
    for number in (0..nodes.len()).rev() {
        found = with_node(found, nodes[number], number as u8, v, given);
    }
    found.turning
}
