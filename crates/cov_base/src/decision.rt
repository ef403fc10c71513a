//! What a decision means: its expression, its condition graph, paths on the graph and vectors. The
//! definitions stand in `specs/`. The functions here do nothing: each carries a law of the
//! definitions as its contract.

ghost use Rattle.std.specs.Prelude.{◌≡◌, ◌<◌, ℕ, suc, Bool, List, length};
ghost use Rattle.cov_base.specs.Expr.{Expr, size, value_of, IsPostfixOf};
ghost use Rattle.cov_base.specs.Expression.{expression_of};
ghost use Rattle.cov_base.specs.Graph.{graph, node, leaf, next_in, IsTree};
ghost use Rattle.cov_base.specs.Marks.{marks, outcome};
ghost use Rattle.cov_base.specs.Path.{Step, LeadsTo, vector_of, walked};

/// The bytes of a decision spell one expression, which is the one that is read from them.
#[tactic(auto, using(crate::proofs::Postfix::read_postfix))]
pub fn bytes_spell_one_expression()
    ensures { (bytes : List ℕ) (e : Expr) → IsPostfixOf bytes e → expression_of bytes ≡ e }
{}

/// A graph has a node for each condition.
#[tactic(auto, using(crate::proofs::Edges::length_graph))]
pub fn has_a_node_for_each_condition()
    ensures { (e : Expr) → length (graph e) ≡ size e }
{}

/// Edges lead to later nodes, so the root has no incoming edge, and a path comes to no node twice.
pub fn edges_lead_ahead()
    ensures later { (e : Expr) (j k : ℕ) (b : Bool) → next_in (graph e) j b ≡ node k → j < k }
    ensures within { (e : Expr) (j k : ℕ) (b : Bool) → next_in (graph e) j b ≡ node k → k < size e }
{}

/// Each node but the root has an incoming edge.
pub fn each_node_is_entered()
    ensures { (e : Expr) (k : ℕ) → suc k < size e
        → (j : ℕ) × (b : Bool) × (next_in (graph e) j b ≡ node (suc k)) }
{}

/// On a tree the path to a node, and so to an edge, is unique.
#[tactic(auto, using(crate::proofs::Reached::one_path))]
pub fn a_tree_has_one_path_to_a_node()
    ensures { (e : Expr) → IsTree (graph e) → (p q : List Step) (k : ℕ)
        → LeadsTo (graph e) p (node k) → LeadsTo (graph e) q (node k) → p ≡ q }
{}

/// A walk on the graph of a decision ends at the leaf of the expression's value.
#[tactic(auto, using(crate::proofs::Walks::walk_law))]
pub fn a_walk_ends_at_the_value()
    ensures { (e : Expr) (value : ℕ → Bool) → walked (graph e) value ≡ leaf (value_of e 0 value) }
{}

/// The outcome of a path's vector is the leaf to which the path leads.
#[tactic(auto, using(crate::proofs::Follows::outcome_law))]
pub fn a_path_leads_to_its_outcome()
    ensures { (e : Expr) (path : List Step) (ends : Bool) → LeadsTo (graph e) path (leaf ends)
        → outcome e (marks (vector_of path)) ≡ ends }
{}
