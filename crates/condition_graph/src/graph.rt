//! The condition graph of a decision.

ghost use Rattle.std.specs.Prelude.{◌≡◌, ◌≤◌, ◌<◌, ◌↔◌, ℕ, List, map, length, IfOk, IfSome, IsSome, IsTrue};
ghost use Rattle.condition_graph.specs.Target.{edges_of, place_of};
ghost use Rattle.cov_base.specs.Expr.{Expr, IsPostfixOf};
ghost use Rattle.cov_base.specs.Graph.{Edges, graph, next_in, IsTree};
ghost use Rattle.cov_base.specs.Marks.{marks, bit, outcome};
ghost use Rattle.decision_meaning.specs.Unmasked.{unmasked};
ghost use Rattle.cov_base.specs.Path.{IsPathVector, IsVectorOfLeaf, IsOutcome};

use crate::node::{Exits, Next};
use crate::reading::Reading;
use crate::tree::{are_entered_once, vector_by};
use crate::turn::turning_conditions;
use crate::walk::{end_of_walk, is_path};
use cov_base::{CondIx, DecisionExpr, Vector};
use std::alloc::{AllocError, Global};
use std::marker::Model;

/// The condition graph of a decision: a node for each condition, in their order, and two leaves,
/// the outcomes. Contracts see where the edges of each node lead.
pub struct Graph {
    nodes: Vec<Exits>,
}

// Written out: a derived drop is proved anew in each crate above.
impl Drop for Graph {
    fn drop(self) {
        let Graph { nodes: _ } = self;
    }
}

impl Model for Graph {
    ghost Value = { List Edges };

    ghost view = { λ g. map edges_of g.nodes.items };

    ghost invariant = { λ g. length g.nodes.items ≤ 32 };
}

impl Graph {
    /// The graph of an expression, from its postfix bytes.
    pub fn of(alloc: Global, expr: &DecisionExpr) -> Result<Self, AllocError>
        requires { (e : Expr) × IsPostfixOf expr.now.postfix e }
        ensures { IfOk result (λ g. (e : Expr) → IsPostfixOf expr.now.postfix e → g ≡ graph e) }
    {
        let reading = Reading::of(alloc, expr.postfix.as_slice())?;
        let mut nodes = reading.nodes;
        nodes.reverse();
        Ok(Graph { nodes })
    }

    /// How many conditions there are.
    pub fn conditions(&self) -> usize
        ensures count { result ≡ length self.now }
        ensures few { result ≤ 32 }
    {
        self.nodes.len()
    }

    /// Where the edge of a node for a value leads.
    pub fn next(&self, node: CondIx, value: bool) -> Next
        requires { node.0 < length self.now }
        ensures { place_of result ≡ next_in self.now node.0 value }
    {
        self.nodes[node.0 as usize].to(value)
    }

    /// The outcome of a vector: the value of the expression on it.
    pub fn outcome(&self, v: Vector) -> bool
        ensures { (e : Expr) → self.now ≡ graph e → result ≡ outcome e (marks v) }
    {
        end_of_walk(self.nodes.as_slice(), v.value)
    }

    /// Whether the graph is a tree: no node has two incoming edges.
    pub fn is_tree(&self) -> bool
        ensures { IsTrue result ↔ IsTree self.now }
    {
        are_entered_once(self.nodes.as_slice())
    }

    /// Whether a vector is that of a path from the root to an outcome.
    pub fn is_path(&self, v: Vector) -> bool
        ensures exact { (e : Expr) → self.now ≡ graph e → IsTrue result ↔ IsPathVector self.now v }

        // Where a caller doesn't know of what expression the graph is.
        ensures path { IsTrue result → IsPathVector self.now v }
    {
        is_path(self.nodes.as_slice(), v)
    }

    /// The unmasked conditions of a vector of one of the graph's paths, bit by bit.
    pub fn unmasked(&self, v: Vector) -> u32
        ensures { (e : Expr) → self.now ≡ graph e → IsPathVector self.now v
            → (c : ℕ) → bit result c ≡ unmasked e (marks v) c }
    {
        let nodes = self.nodes.as_slice();
        turning_conditions(nodes, v, end_of_walk(nodes, v.value))
    }

    /// The vector of the path that ends with the edge of a node for a value: there is one where the
    /// graph is a tree and that edge leads to an outcome.
    pub fn path_of_leaf(&self, node: CondIx, value: bool) -> Option<Vector>
        requires { node.0 < length self.now }
        ensures exactly { IsSome result ↔ (IsTree self.now × IsOutcome (next_in self.now node.0 value)) }
        ensures path { IfSome result (λ v. (e : Expr) → self.now ≡ graph e
            → IsVectorOfLeaf (graph e) node.0 value v) }
    {
        if !self.is_tree() {
            return None;
        }
        match self.next(node, value) {
            Next::Node(_) => None,
            Next::Leaf(_) => Some(vector_by(self.nodes.as_slice(), node, value)),
        }
    }
}
