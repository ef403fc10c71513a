//! The search for the least unique-cause pair.

ghost use Rattle.std.specs.Prelude.{◌≡◌, ◌<◌, ◌^◌};
ghost use Rattle.cov_base.specs.Expr.{Expr, size};
ghost use Rattle.cov_base.specs.Graph.{graph};
ghost use Rattle.cov_base.specs.Marks.{marks, outcome};
ghost use Rattle.cov_base.specs.Lists.{Everywhere};
ghost use Rattle.decision_meaning.specs.Pair.{IsLeastPair, is_unique_cause};
ghost use Rattle.cov_base.specs.Path.{IsPathVector};
ghost use Rattle.mcdc_verdicts.specs.Search.{improves, is_behind, best_with};
ghost use Rattle.mcdc_verdicts.specs.View.{pair_view};

use crate::order::{has, has_only, precedes, turned};
use condition_graph::Graph;
use cov_base::{CondIx, Vector};

/// Whether two vectors are a unique-cause pair for a condition, from the outcome of the first one. It
/// is passed on, since one vector is tried with many others.
fn is_cause(dec: &Graph, c: CondIx, v: Vector, given: bool, w: Vector) -> bool
    requires given { (e : Expr) → dec.now ≡ graph e → given ≡ outcome e (marks v) }
    requires first { IsPathVector dec.now v }
    ensures { (e : Expr) → dec.now ≡ graph e → result ≡ is_unique_cause e c.0 (marks v) (marks w) }
{
    has_only(turned(v, w), c) && dec.outcome(w) != given
}

/// Whether the pair of `v` and `w` comes before the best one so far.
fn improves(v: Vector, w: Vector, best: Option<(Vector, Vector)>) -> bool
    ensures { result ≡ improves v w (pair_view best) }
{
    match best {
        None => true,
        Some((first, second)) => {
            precedes(v, first) || !precedes(first, v) && precedes(w, second)
        }
    }
}

/// Whether the best pair so far has a lesser first vector than `v`.
fn is_behind(v: Vector, best: Option<(Vector, Vector)>) -> bool
    ensures { result ≡ is_behind v (pair_view best) }
{
    match best {
        None => false,
        Some((first, _)) => precedes(first, v),
    }
}

/// The least pair among `before` and the pairs of `v` with one of the vectors.
fn best_of_row(
    dec: &Graph,
    c: CondIx,
    v: Vector,
    vectors: &[Vector],
    before: Option<(Vector, Vector)>,
) -> Option<(Vector, Vector)>
    requires first { IsPathVector dec.now v }
    ensures { (e : Expr) → dec.now ≡ graph e →
        pair_view result ≡ best_with (is_unique_cause e c.0) v vectors.now (pair_view before) }
{
    let given = dec.outcome(v);
    let mut best = before;
    for w in vectors {
        if is_cause(dec, c, v, given, *w) && improves(v, *w, best) {
            best = Some((v, *w));
        }
    }
    best
}

/// The same. A vector in which the condition is masked is in no pair, and one behind the best pair so
/// far is first in no better one, so these are tried with none.
fn best_with(
    dec: &Graph,
    c: CondIx,
    v: Vector,
    vectors: &[Vector],
    before: Option<(Vector, Vector)>,
) -> Option<(Vector, Vector)>
    requires first { IsPathVector dec.now v }
    requires vectors { Everywhere (IsPathVector dec.now) vectors.now }
    ensures least { (e : Expr) → dec.now ≡ graph e →
        pair_view result ≡ best_with (is_unique_cause e c.0) v vectors.now (pair_view before) }

    // What the type says of `v`. It isn't known of the items of a list.
    ensures word { v.seen < 2 ^ 32 }
{
    if is_behind(v, before) {
        return before;
    }
    if !has(dec.unmasked(v), c) {
        return before;
    }
    best_of_row(dec, c, v, vectors, before)
}

/// The least unique-cause pair for a condition. Where the vectors come in their order, the first pair
/// that is found is the least, and no vector behind its first one is tried.
pub(crate) fn least_cause(dec: &Graph, vectors: &[Vector], c: CondIx) -> Option<(Vector, Vector)>
    requires { Everywhere (IsPathVector dec.now) vectors.now }
    ensures { (e : Expr) → dec.now ≡ graph e →
        IsLeastPair (size e) (is_unique_cause e c.0) vectors.now (pair_view result) }
{
    let mut best = None;
    for v in vectors {
        best = best_with(dec, c, *v, vectors, best);
    }
    best
}
