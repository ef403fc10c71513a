//! The graphs of an object's decisions.

ghost use Rattle.std.specs.Prelude.{◌≡◌, map, not, All, IfOk};
ghost use Rattle.std.specs.Option.{option_map_or};
ghost use Rattle.cov_base.specs.declared.obligations.DecEntry.{DecEntry};
ghost use Rattle.cov_base.specs.Expr.{Expr, IsPostfixOf};
ghost use Rattle.decision_map.specs.Decisions.{graph_of_entry};

use condition_graph::Graph;
use cov_base::DecEntry;
use std::alloc::{AllocError, Global};

/// The graph of a decision, and whether it is a tree.
pub(crate) struct DecisionGraph {
    pub(crate) graph: Graph,
    pub(crate) is_tree: bool,
}

// Written out: a derived drop is proved anew in each crate above.
impl Drop for DecisionGraph {
    fn drop(self) {
        let DecisionGraph {
            graph: _,
            is_tree: _,
        } = self;
    }
}

/// The graph of a decision.
fn graph_of_entry(alloc: Global, entry: &DecEntry) -> Result<DecisionGraph, AllocError>
    requires { (e : Expr) × IsPostfixOf entry.now.expression.postfix e }
    ensures { IfOk result (λ made. made ≡ graph_of_entry entry.now) }
{
    let graph = Graph::of(alloc, &entry.expression)?;
    let is_tree = graph.is_tree();
    Ok(DecisionGraph { graph, is_tree })
}

/// The graph of each decision.
pub(crate) fn graphs_of(
    alloc: Global,
    decisions: &[DecEntry],
) -> Result<Vec<DecisionGraph>, AllocError>
    requires { All (λ (entry : DecEntry). (e : Expr) × IsPostfixOf entry.expression.postfix e) decisions.now }
    ensures { IfOk result (λ made. made.items ≡ map graph_of_entry decisions.now) }
{
    let mut graphs = Vec::new(alloc);
    for entry in decisions {
        graphs.push(graph_of_entry(alloc, entry)?)?;
    }
    Ok(graphs)
}
