//! Whether a list of vectors takes every edge of a decision's graph.

ghost use Rattle.std.specs.Prelude.{◌≡◌, ◌↔◌, ◌<◌, ℕ, true, false, IsTrue};
ghost use Rattle.cov_base.specs.Expr.{Expr, size};
ghost use Rattle.cov_base.specs.Graph.{graph, IsTree};
ghost use Rattle.cov_base.specs.Lists.{Everywhere};
ghost use Rattle.decision_meaning.specs.Pair.{is_unique_cause, is_masking};
ghost use Rattle.cov_base.specs.Path.{IsPathVector};
ghost use Rattle.decision_meaning.specs.Verdict.{PathTakesEdge, PathsTakeAllEdges, TakesAllEdges, HasPairOfPaths};

use crate::order::has;
use condition_graph::Graph;
use cov_base::{CondIx, Vector};

/// Whether one of the vectors is of a path that takes the edge of a node for a value.
fn takes_edge(dec: &Graph, vectors: &[Vector], node: CondIx, value: bool) -> bool
    ensures { (e : Expr) → dec.now ≡ graph e → IsTrue result ↔ PathTakesEdge e vectors.now node.0 value }
{
    for v in vectors {
        if has(v.seen, node) && has(v.value, node) == value && dec.is_path(*v) {
            return true;
        }
    }
    false
}

/// Whether both edges of a node are taken by paths of the vectors.
fn takes_both(dec: &Graph, vectors: &[Vector], node: CondIx) -> bool
    ensures { (e : Expr) → dec.now ≡ graph e
        → IsTrue result ↔ (PathTakesEdge e vectors.now node.0 false × PathTakesEdge e vectors.now node.0 true) }
{
    takes_edge(dec, vectors, node, false) && takes_edge(dec, vectors, node, true)
}

/// Whether each edge of a decision's graph lies on the path of one of the vectors. Vectors that are
/// of no path of the graph may be among them, and count for nothing. Where it is so and the graph is
/// a tree, each condition has pairs of both kinds.
pub fn all_edges(dec: &Graph, vectors: &[Vector]) -> bool
    ensures exact { (e : Expr) → dec.now ≡ graph e → IsTrue result ↔ PathsTakeAllEdges e vectors.now }
    ensures of_paths { (e : Expr) → dec.now ≡ graph e → Everywhere (IsPathVector dec.now) vectors.now
        → IsTrue result ↔ TakesAllEdges e vectors.now }
    ensures unique_cause { (e : Expr) → dec.now ≡ graph e → IsTrue result → IsTree dec.now
        → (c : ℕ) → c < size e → HasPairOfPaths e (is_unique_cause e c) vectors.now }
    ensures masking { (e : Expr) → dec.now ≡ graph e → IsTrue result → IsTree dec.now
        → (c : ℕ) → c < size e → HasPairOfPaths e (is_masking e c) vectors.now }
{
    for number in 0..dec.conditions() {
        if !takes_both(dec, vectors, CondIx(number as u8)) {
            return false;
        }
    }
    true
}
