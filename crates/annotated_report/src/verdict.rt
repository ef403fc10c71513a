//! What the vectors of a decision show of it, and of its conditions.

ghost use Rattle.std.specs.Prelude.{◌≡◌, Bool, true, false};
ghost use Rattle.cov_base.specs.Expr.{Expr, size};
ghost use Rattle.cov_base.specs.Graph.{graph};
ghost use Rattle.cov_base.specs.Lists.{Everywhere};
ghost use Rattle.decision_meaning.specs.Pair.{IsLeastPair};
ghost use Rattle.cov_base.specs.Path.{IsPathVector};
ghost use Rattle.mcdc_verdicts.specs.View.{pair_view};
ghost use Rattle.annotated_report.specs.LeastPair.{kind_of};
ghost use Rattle.annotated_report.specs.Verdicts.{gives, lacks, lacks_outcome};

use crate::finding::Missing;
use condition_graph::Graph;
use cov_base::{CondIx, Level, Vector};
use mcdc_verdicts::{Outcomes, decision, masking, unique_cause};

/// Which outcomes the vectors of a decision give.
pub fn outcomes(dec: &Graph, vectors: &[Vector]) -> Outcomes
    ensures given_true { (e : Expr) → dec.now ≡ graph e → result.given_true ≡ gives e true vectors.now }
    ensures given_false { (e : Expr) → dec.now ≡ graph e → result.given_false ≡ gives e false vectors.now }
{
    decision(dec, vectors)
}

/// The outcome that is missing, if one is.
fn missing_outcome(given: Outcomes) -> Option<Missing>
    ensures { result ≡ lacks_outcome given.given_true given.given_false }
{
    if !given.given_true {
        Some(Missing::Outcome(true))
    } else if !given.given_false {
        Some(Missing::Outcome(false))
    } else {
        None
    }
}

/// What a decision lacks, if anything: an evaluation, or an outcome.
pub(crate) fn missing(vectors: &[Vector], given: Outcomes) -> Option<Missing>
    ensures { (e : Expr) → given.given_true ≡ gives e true vectors.now → given.given_false ≡ gives e false vectors.now
        → result ≡ lacks e vectors.now }
{
    if vectors.is_empty() {
        Some(Missing::Evaluation)
    } else {
        missing_outcome(given)
    }
}

/// The least pair of the level's kind that shows a condition to matter.
pub fn shown_pair(
    level: Level,
    dec: &Graph,
    vectors: &[Vector],
    c: CondIx,
) -> Option<(Vector, Vector)>
    requires { Everywhere (IsPathVector dec.now) vectors.now }
    ensures { (e : Expr) → dec.now ≡ graph e → IsLeastPair (size e) (kind_of level e c.0) vectors.now (pair_view result) }
{
    match level {
        Level::UcMcdc => unique_cause(dec, vectors, c),
        Level::Stmt | Level::Decision | Level::Mcdc => masking(dec, vectors, c),
    }
}
