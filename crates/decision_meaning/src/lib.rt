//! What the vectors of a decision show: conditions that can turn its outcome, the pairs of vectors
//! that show that a condition matters, and verdicts. The definitions stand in `specs/`; expressions,
//! graphs and paths stand in `cov_base`. The functions here do nothing: each carries a law of the
//! definitions as its contract.
#![tactic(auto)]

ghost use Rattle.std.specs.Prelude.{◌≡◌, ◌<◌, ℕ, true, false, not, List, Some};
ghost use Rattle.cov_base.specs.declared.event.Vector.{Vector};
ghost use Rattle.cov_base.specs.Expr.{Expr, size};
ghost use Rattle.cov_base.specs.Graph.{graph, IsTree};
ghost use Rattle.cov_base.specs.Lists.{Everywhere};
ghost use Rattle.cov_base.specs.Marks.{Marks, marks, outcome, precedes};
ghost use Rattle.decision_meaning.specs.Unmasked.{unmasked};
ghost use Rattle.cov_base.specs.Path.{IsPathVector};
ghost use Rattle.decision_meaning.specs.Pair.{is_unique_cause, is_masking, Pair, IsLeastPair};
ghost use Rattle.decision_meaning.specs.Turn.{can_turn};
ghost use Rattle.decision_meaning.specs.Verdict.{TakesAllEdges, HasPair};

/// A condition is unmasked just where it was evaluated and its other edge leads to the other outcome

/// over conditions that were not evaluated.
#[tactic(auto, using(crate::proofs::Turns::turn_law))]
pub fn unmasked_conditions_can_turn_the_outcome()
    ensures { (e : Expr) (v : Vector) (c : ℕ) → IsPathVector (graph e) v
        → can_turn (graph e) (marks v) (outcome e (marks v)) c ≡ unmasked e (marks v) c }
{}

/// A masking pair has two outcomes.
#[tactic(auto, using(crate::proofs::Pairs::masking_differs))]
pub fn a_masking_pair_has_two_outcomes()
    ensures { (e : Expr) (c : ℕ) (v w : Vector) → IsPathVector (graph e) v → IsPathVector (graph e) w
        → is_masking e c (marks v) (marks w) ≡ true
        → outcome e (marks w) ≡ not (outcome e (marks v)) }
{}

/// Every unique-cause pair is a masking pair.
#[tactic(auto, using(crate::proofs::Pairs::unique_masks))]
pub fn a_unique_cause_pair_is_a_masking_pair()
    ensures { (e : Expr) (c : ℕ) (v w : Vector) → IsPathVector (graph e) v → IsPathVector (graph e) w
        → is_unique_cause e c (marks v) (marks w) ≡ true
        → is_masking e c (marks v) (marks w) ≡ true }
{}

/// Both kinds of pairs are symmetric: a pair stays one when its vectors are exchanged. So the least

/// pair among all ordered pairs has its lesser vector first.
pub fn a_pair_may_be_exchanged()
    ensures unique_cause { (e : Expr) (c : ℕ) (v w : Marks) → is_unique_cause e c v w ≡ is_unique_cause e c w v }
    ensures masking { (e : Expr) (c : ℕ) (v w : Marks) → is_masking e c v w ≡ is_masking e c w v }
    ensures lesser_of_unique_cause { (e : Expr) (c : ℕ) (vectors : List Vector) (p : Pair)
        → IsLeastPair (size e) (is_unique_cause e c) vectors (Some p)
        → precedes (size e) (marks p.second) (marks p.first) ≡ false }
    ensures lesser_of_masking { (e : Expr) (c : ℕ) (vectors : List Vector) (p : Pair)
        → IsLeastPair (size e) (is_masking e c) vectors (Some p)
        → precedes (size e) (marks p.second) (marks p.first) ≡ false }
{}

/// On a tree, if the evaluations take every edge, then each condition has a pair of both kinds.
pub fn all_edges_of_a_tree_give_pairs()
    ensures unique_cause { (e : Expr) → IsTree (graph e) → (vectors : List Vector)
        → Everywhere (IsPathVector (graph e)) vectors → TakesAllEdges e vectors
        → (c : ℕ) → c < size e → HasPair (is_unique_cause e c) vectors }
    ensures masking { (e : Expr) → IsTree (graph e) → (vectors : List Vector)
        → Everywhere (IsPathVector (graph e)) vectors → TakesAllEdges e vectors
        → (c : ℕ) → c < size e → HasPair (is_masking e c) vectors }
{}
