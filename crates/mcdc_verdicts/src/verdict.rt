//! What a list of statements and a list of vectors cover.

ghost use Rattle.std.specs.Prelude.{◌≡◌, ◌↔◌, Bool, true, false, IsTrue};
ghost use Rattle.cov_base.specs.Expr.{Expr};
ghost use Rattle.cov_base.specs.Graph.{graph};
ghost use Rattle.decision_meaning.specs.Verdict.{IsStarted, Gives};

use condition_graph::Graph;
use cov_base::{StmtId, Vector};

/// Which outcomes the evaluations of a decision gave.
#[derive(Clone, Copy, PartialEq, Eq)]
pub struct Outcomes {
    pub given_false: bool,
    pub given_true: bool,
}

/// Whether a statement is among those that started.
pub fn statement(started: &[StmtId], stmt: StmtId) -> bool
    ensures { IsTrue result ↔ IsStarted started.now stmt }
{
    for s in started {
        if *s == stmt {
            return true;
        }
    }
    false
}

/// Whether one of the vectors gives an outcome.
fn gives(dec: &Graph, vectors: &[Vector], given: bool) -> bool
    ensures { (e : Expr) → dec.now ≡ graph e → IsTrue result ↔ Gives e vectors.now given }
{
    for v in vectors {
        if dec.outcome(*v) == given {
            return true;
        }
    }
    false
}

/// Which outcomes the evaluations of a decision gave, by their vectors.
pub fn decision(dec: &Graph, vectors: &[Vector]) -> Outcomes
    ensures given_false { (e : Expr) → dec.now ≡ graph e → IsTrue result.given_false ↔ Gives e vectors.now false }
    ensures given_true { (e : Expr) → dec.now ≡ graph e → IsTrue result.given_true ↔ Gives e vectors.now true }
{
    Outcomes {
        given_false: gives(dec, vectors, false),
        given_true: gives(dec, vectors, true),
    }
}
