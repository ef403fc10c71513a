//! The distinct vectors of a decision as strings of JSON.

ghost use Rattle.std.specs.Prelude.{◌≡◌, ◌<◌, ◌≤◌, ◌++◌, map, length, take, drop, IfOk, OnOk};
ghost use Rattle.cov_base.specs.Expr.{Expr, size};
ghost use Rattle.cov_base.specs.Graph.{graph};
ghost use Rattle.cov_base.specs.Lists.{Everywhere};
ghost use Rattle.cov_base.specs.Marks.{marks, precedes};
ghost use Rattle.cov_base.specs.Path.{IsPathVector};
ghost use Rattle.serde_json.specs.View.{view};
ghost use Rattle.json_report.specs.Distinct.{Rises, in_front, added, distinct};
ghost use Rattle.json_report.specs.Objects.{vector_values};

use crate::strings::vector_value;
use condition_graph::Graph;
use cov_base::Vector;
use mcdc_verdicts::compare;
use serde_json::Value;
use std::alloc::{AllocError, Global};

/// Whether a vector of a decision comes before another.
fn comes_before(dec: &Graph, v: Vector, w: Vector) -> bool
    requires first { IsPathVector dec.now v }
    requires second { IsPathVector dec.now w }
    ensures { (e : Expr) → dec.now ≡ graph e → result ≡ precedes (size e) (marks v) (marks w) }
{
    compare(v, w).is_lt()
}

/// How many of the vectors in order come before another. Where the last of them does, all do, so vectors
/// that are added in their order each find their place at once.
fn place_of(kept: &[Vector], dec: &Graph, vector: Vector) -> usize
    requires kept { Everywhere (IsPathVector dec.now) kept.now }
    requires vector { IsPathVector dec.now vector }
    ensures within { result ≤ length kept.now }
    ensures place { (e : Expr) → dec.now ≡ graph e → Rises (size e) kept.now
        → added (size e) vector kept.now ≡ take result kept.now ++ in_front (size e) vector (drop result kept.now) }
{
    let count = kept.len();
    if count > 0 && comes_before(dec, kept[count - 1], vector) {
        return count;
    }
    first_place(kept, dec, vector)
}

/// The same by going through the vectors, in whatever order they are.
fn first_place(kept: &[Vector], dec: &Graph, vector: Vector) -> usize
    requires kept { Everywhere (IsPathVector dec.now) kept.now }
    requires vector { IsPathVector dec.now vector }
    ensures within { result ≤ length kept.now }
    ensures place { (e : Expr) → dec.now ≡ graph e
        → added (size e) vector kept.now ≡ take result kept.now ++ in_front (size e) vector (drop result kept.now) }
{
    for (at, other) in kept.iter().enumerate() {
        if !comes_before(dec, *other, vector) {
            return at;
        }
    }
    kept.len()
}

/// Puts a vector into its place among those in order, unless one with its marks stands there.
fn add(kept: &mut Vec<Vector>, dec: &Graph, vector: Vector) -> Result<(), AllocError>
    requires kept { Everywhere (IsPathVector dec.now) kept.old.items }
    requires vector { IsPathVector dec.now vector }
    ensures { OnOk result ((e : Expr) → dec.now ≡ graph e → Rises (size e) kept.old.items
        → kept.new.items ≡ added (size e) vector kept.old.items) }
{
    let at = place_of(kept.as_slice(), dec, vector);
    if at == kept.len() || comes_before(dec, vector, kept[at]) {
        kept.insert(at, vector)?;
    }
    Ok(())
}

/// The distinct vectors of a decision, in their order.
fn distinct(alloc: Global, dec: &Graph, vectors: &[Vector]) -> Result<Vec<Vector>, AllocError>
    requires graph { (e : Expr) × (dec.now ≡ graph e) }
    requires vectors { Everywhere (IsPathVector dec.now) vectors.now }
    ensures { IfOk result (λ kept. (e : Expr) → dec.now ≡ graph e → kept.items ≡ distinct (size e) vectors.now) }
{
    let mut kept = Vec::new(alloc);
    for vector in vectors {
        add(&mut kept, dec, *vector)?;
    }
    Ok(kept)
}

/// The texts of the distinct vectors of a decision, in their order.
pub(crate) fn vector_values(
    alloc: Global,
    dec: &Graph,
    vectors: &[Vector],
) -> Result<Vec<Value>, AllocError>
    requires graph { (e : Expr) × (dec.now ≡ graph e) }
    requires vectors { Everywhere (IsPathVector dec.now) vectors.now }
    ensures { IfOk result (λ vs. (e : Expr) → dec.now ≡ graph e
        → map view vs.items ≡ vector_values (size e) vectors.now) }
{
    let kept = distinct(alloc, dec, vectors)?;
    let mut values = Vec::new(alloc);
    for vector in kept.as_slice() {
        values.push(vector_value(alloc, dec.conditions(), *vector)?)?;
    }
    Ok(values)
}
