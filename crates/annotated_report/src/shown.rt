//! Vectors, and the pairs of them that are shown, as text.

ghost use Rattle.std.specs.Prelude.{◌≡◌, ◌<◌, ◌≤◌, ◌++◌, IfOk, OnOk, Some};
ghost use Rattle.cov_base.specs.Marks.{bit, marks, rank};
ghost use Rattle.annotated_report.specs.Shown.{letter_of, vector_text, pair_text};

use cov_base::{Bytes, Vector};
use std::alloc::{AllocError, Global};

/// Whether a word has the bit of a condition.
fn has(word: u32, condition: usize) -> bool
    requires { condition < 32 }
    ensures { result ≡ bit word condition }
{
    (word >> condition) & 1 == 1
}

/// What a vector gives a condition: F, T, or a dash where it was not evaluated.
fn letter(v: Vector, condition: usize) -> u8
    requires { condition < 32 }
    ensures { result ≡ letter_of (rank (marks v) condition) }
{
    if !has(v.seen, condition) {
        b'-'
    } else if has(v.value, condition) {
        b'T'
    } else {
        b'F'
    }
}

/// Appends a vector of so many conditions.
fn put_vector(text: &mut Vec<u8>, conditions: usize, v: Vector) -> Result<(), AllocError>
    requires { conditions ≤ 32 }
    ensures { OnOk result (text.new.items ≡ text.old.items ++ vector_text conditions v) }
{
    for condition in 0..conditions {
        text.push(letter(v, condition))?;
    }
    Ok(())
}

/// Appends a pair of vectors of so many conditions.
fn put_pair(text: &mut Vec<u8>, conditions: usize, pair: (Vector, Vector)) -> Result<(), AllocError>
    requires { conditions ≤ 32 }
    ensures { OnOk result (text.new.items ≡ text.old.items ++ pair_text conditions (record { first = pair.0; second = pair.1 })) }
{
    let (first, second) = pair;
    put_vector(text, conditions, first)?;
    text.push(b' ')?;
    put_vector(text, conditions, second)
}

/// The text of a vector of so many conditions: for each of them F, T, or a dash where it was not
/// evaluated.
pub fn vector_text(alloc: Global, conditions: usize, v: Vector) -> Result<Bytes, AllocError>
    requires { conditions ≤ 32 }
    ensures { IfOk result (λ text. text ≡ vector_text conditions v) }
{
    let mut text = Vec::new(alloc);
    put_vector(&mut text, conditions, v)?;
    Ok(Bytes::from(text))
}

/// The text of a pair of vectors of so many conditions.
pub(crate) fn pair_text(
    alloc: Global,
    conditions: usize,
    pair: (Vector, Vector),
) -> Result<Bytes, AllocError>
    requires { conditions ≤ 32 }
    ensures { IfOk result (λ text. text ≡ pair_text conditions (record { first = pair.0; second = pair.1 })) }
{
    let mut text = Vec::new(alloc);
    put_pair(&mut text, conditions, pair)?;
    Ok(Bytes::from(text))
}
