//! The nodes of a graph, and where their edges lead.

ghost use Rattle.std.specs.Prelude.{◌≡◌};
ghost use Rattle.cov_base.specs.Graph.{target};

use cov_base::CondIx;

/// Where an edge leads.
#[derive(Clone, Copy, PartialEq, Eq)]
pub enum Next {
    /// To the node of a condition.
    Node(CondIx),
    /// To an outcome.
    Leaf(bool),
}

/// Where the two edges of a node lead.
#[derive(Clone, Copy, PartialEq, Eq)]
pub struct Exits {
    pub on_true: Next,
    pub on_false: Next,
}

/// A step of a path: a node, and the value by which it is left.
#[derive(Clone, Copy, PartialEq, Eq)]
pub(crate) struct Step {
    pub(crate) node: CondIx,
    pub(crate) value: bool,
}

impl Exits {
    ghost use Rattle.condition_graph.specs.Target.{place_of, edges_of};

    /// Where the edge of a value leads.
    pub(crate) fn to(&self, value: bool) -> Next
        ensures { place_of result ≡ target (edges_of self.now) value }
    {
        if value { self.on_true } else { self.on_false }
    }
}
