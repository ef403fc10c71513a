//! The least pair of vectors that shows a condition to matter.

ghost use Rattle.std.specs.Prelude.{◌≡◌, ◌<◌, ◌^◌, Bool, None};
ghost use Rattle.cov_base.specs.Expr.{Expr, size};
ghost use Rattle.cov_base.specs.Graph.{graph};
ghost use Rattle.cov_base.specs.Marks.{marks};
ghost use Rattle.cov_base.specs.Lists.{Everywhere};
ghost use Rattle.decision_meaning.specs.Pair.{IsLeastPair, is_unique_cause, is_masking};
ghost use Rattle.cov_base.specs.Path.{IsPathVector};
ghost use Rattle.mcdc_verdicts.specs.Search.{IsWord, shows, precedes_least, lowest, pair_of};
ghost use Rattle.mcdc_verdicts.specs.View.{pair_view};

use crate::cause::least_cause;
use crate::order::{has, precedes};
use condition_graph::Graph;
use cov_base::{CondIx, Vector};

/// Whether a condition is unmasked in the vector of a path, and has a value.
fn shows(dec: &Graph, c: CondIx, value: bool, v: Vector) -> bool
    requires { IsPathVector dec.now v }
    ensures { (e : Expr) → dec.now ≡ graph e → result ≡ shows e c.0 value (marks v) }
{
    has(v.value, c) == value && has(dec.unmasked(v), c)
}

/// Whether a vector comes before the least one so far.
fn precedes_least(v: Vector, least: Option<Vector>) -> bool
    ensures before { result ≡ precedes_least v least }

    // What the type says of `v`. It isn't known of the items of a list.
    ensures word { v.seen < 2 ^ 32 }
{
    match least {
        None => true,
        Some(least) => precedes(v, least),
    }
}

/// The least of the vectors in which a condition is unmasked and has a value.
fn lowest(dec: &Graph, vectors: &[Vector], c: CondIx, value: bool) -> Option<Vector>
    requires { Everywhere (IsPathVector dec.now) vectors.now }
    ensures lowest { (e : Expr) → dec.now ≡ graph e → result ≡ lowest (shows e c.0 value) vectors.now None }
    ensures words { Everywhere IsWord vectors.now }
{
    let mut least = None;
    for v in vectors {
        if precedes_least(*v, least) && shows(dec, c, value, *v) {
            least = Some(*v);
        }
    }
    least
}

/// The pair of two vectors, the lesser one first, where both are there.
fn pair_of(v: Option<Vector>, w: Option<Vector>) -> Option<(Vector, Vector)>
    ensures { pair_view result ≡ pair_of v w }
{
    match (v, w) {
        (Some(v), Some(w)) if precedes(w, v) => Some((w, v)),
        (Some(v), Some(w)) => Some((v, w)),
        _ => None,
    }
}

/// The least masking pair for condition `c` of a decision among the vectors of its evaluations, the
/// lesser vector first. A number that no condition has gives none.
pub fn masking(dec: &Graph, vectors: &[Vector], c: CondIx) -> Option<(Vector, Vector)>
    requires { Everywhere (IsPathVector dec.now) vectors.now }
    ensures least { (e : Expr) → dec.now ≡ graph e →
        IsLeastPair (size e) (is_masking e c.0) vectors.now (pair_view result) }
{
    // Two vectors are a pair where the condition is unmasked in both, and differs.
    pair_of(
        lowest(dec, vectors, c, false),
        lowest(dec, vectors, c, true),
    )
}

/// The least unique-cause pair for condition `c` of a decision among the vectors of its evaluations,
/// the lesser vector first. A number that no condition has gives none.
pub fn unique_cause(dec: &Graph, vectors: &[Vector], c: CondIx) -> Option<(Vector, Vector)>
    requires { Everywhere (IsPathVector dec.now) vectors.now }
    ensures least { (e : Expr) → dec.now ≡ graph e →
        IsLeastPair (size e) (is_unique_cause e c.0) vectors.now (pair_view result) }
{
    // A unique-cause pair is a masking pair too.
    match masking(dec, vectors, c) {
        None => None,
        Some(_) => least_cause(dec, vectors, c),
    }
}
