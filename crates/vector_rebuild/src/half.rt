//! Evaluations that are under way.

ghost use Rattle.std.specs.Prelude.{◌≡◌, ◌<◌};
ghost use Rattle.std.specs.Option.{option_map};
ghost use Rattle.transcript.specs.Replay.{begun, with_step};
ghost use Rattle.vector_rebuild.specs.Rebuilt.{half_as, step_as};

use crate::visit::Step;
use cov_base::{CondIx, Vector};

/// An evaluation that is under way: the vector of its steps so far, and the node that comes next.
#[derive(Clone, Copy, PartialEq, Eq)]
pub struct Half {
    pub vector: Vector,
    pub next: CondIx,
}

/// The vector with which an evaluation comes to a node: a new one to the root, and the one that is
/// under way to its next node. None comes to others.
pub fn begun(half: Option<Half>, node: CondIx) -> Option<Vector>
    ensures { result ≡ begun (option_map half_as half) node.0 }
{
    if node.0 == 0 {
        return Some(Vector { seen: 0, value: 0 });
    }
    match half {
        Some(half) if half.next.0 == node.0 => Some(half.vector),
        _ => None,
    }
}

/// A vector with one step more.
pub fn with_step(vector: Vector, step: Step) -> Vector
    requires { step.node.0 < 32 }
    ensures { result ≡ with_step vector (step_as step) }
{
    let bit = 1 << step.node.0;
    Vector {
        seen: vector.seen | bit,
        value: if step.value {
            vector.value | bit
        } else {
            vector.value
        },
    }
}
