//! The order of vectors, and their bits.

ghost use Rattle.std.specs.Prelude.{◌≡◌, ◌↔◌, ℕ, nat_eq, not, IsTrue};
ghost use Rattle.std.specs.Ordering.{is_lt, is_gt};
ghost use Rattle.cov_base.specs.Marks.{bit, marks, rank, precedes};
ghost use Rattle.decision_meaning.specs.Pair.{turns};
ghost use Rattle.mcdc_verdicts.specs.Search.{widest};

use cov_base::{CondIx, Vector};
use std::cmp::Ordering;

/// Whether the bit of a condition is set.
pub(crate) fn has(word: u32, c: CondIx) -> bool
    ensures { result ≡ bit word c.0 }
{
    c.0 < 32 && (word >> c.0) & 1 == 1
}

/// Whether the bit of a condition is set, and no other one.
pub(crate) fn has_only(word: u32, c: CondIx) -> bool
    ensures { IsTrue result ↔ ((d : ℕ) → bit word d ≡ nat_eq d c.0) }
{
    c.0 < 32 && word == 1 << c.0
}

/// The place of a condition's mark in the order of marks.
fn rank(v: Vector, c: CondIx) -> u32
    ensures { result ≡ rank (marks v) c.0 }
{
    if !has(v.seen, c) {
        2
    } else if has(v.value, c) {
        1
    } else {
        0
    }
}

/// The conditions that were evaluated in both vectors, to different values.
pub(crate) fn turned(v: Vector, w: Vector) -> u32
    ensures { (c : ℕ) → bit result c ≡ turns c (marks v) (marks w) }
{
    v.seen & w.seen & (v.value ^ w.value)
}

/// The conditions whose marks differ.
fn differing(v: Vector, w: Vector) -> u32
    ensures { (c : ℕ) → bit result c ≡ not (nat_eq (rank (marks v) c) (rank (marks w) c)) }
{
    (v.seen ^ w.seen) | (v.seen & (v.value ^ w.value))
}

/// Whether `v` comes before `w` in the order of vectors.
pub(crate) fn precedes(v: Vector, w: Vector) -> bool
    ensures { result ≡ precedes widest (marks v) (marks w) }
{
    let differing = differing(v, w);
    if differing == 0 {
        false
    } else {
        // The first mark that differs decides.
        let first = CondIx(differing.trailing_zeros() as u8);
        rank(v, first) < rank(w, first)
    }
}

/// How two vectors compare in the order of vectors: condition by condition, F before T before a
/// condition that was not evaluated.
pub fn compare(v: Vector, w: Vector) -> Ordering
    ensures less { is_lt result ≡ precedes widest (marks v) (marks w) }
    ensures greater { is_gt result ≡ precedes widest (marks w) (marks v) }
{
    if precedes(v, w) {
        Ordering::Less
    } else if precedes(w, v) {
        Ordering::Greater
    } else {
        Ordering::Equal
    }
}
