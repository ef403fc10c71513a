//! Conditions of decisions as objects of JSON.

ghost use Rattle.std.specs.Prelude.{◌≡◌, ◌<◌, ◌≤◌, map, length, IfOk};
ghost use Rattle.cov_base.specs.Graph.{graph};
ghost use Rattle.cov_base.specs.Lists.{Everywhere};
ghost use Rattle.cov_base.specs.Path.{IsPathVector};
ghost use Rattle.mcdc_verdicts.specs.View.{pair_view};
ghost use Rattle.serde_json.specs.View.{view};
ghost use Rattle.annotated_report.specs.Findings.{expr_of};
ghost use Rattle.annotated_report.specs.LeastPair.{shown_pair};
ghost use Rattle.cov_base.specs.Expr.{size};
ghost use Rattle.json_report.specs.Objects.{pair_value, condition_object, condition_objects, asked_conditions};

use crate::strings::vector_value;
use annotated_report::{asks_pairs, shown_pair};
use condition_graph::Graph;
use cov_base::{CondIx, DecEntry, Level, Place, Vector};
use serde_json::{Value, json};
use std::alloc::{AllocError, Global};

/// The texts of two vectors of so many conditions, or null where there are none.
fn pair_value(
    alloc: Global,
    conditions: usize,
    pair: Option<(Vector, Vector)>,
) -> Result<Value, AllocError>
    requires { conditions ≤ 32 }
    ensures { IfOk result (λ v. view v ≡ pair_value conditions (pair_view pair)) }
{
    match pair {
        Some((first, second)) => {
            let first = vector_value(alloc, conditions, first)?;
            let second = vector_value(alloc, conditions, second)?;
            json!(in alloc; [first, second])
        }
        None => Ok(Value::Null),
    }
}

/// A condition, and the pair that shows it to matter.
fn condition_value(
    alloc: Global,
    conditions: usize,
    place: Place,
    pair: Option<(Vector, Vector)>,
) -> Result<Value, AllocError>
    requires { conditions ≤ 32 }
    ensures { IfOk result (λ v. view v ≡ condition_object conditions place (pair_view pair)) }
{
    let covered = pair.is_some();
    let pair = pair_value(alloc, conditions, pair)?;
    json!(in alloc; {
        "column": place.column,
        "covered": covered,
        "line": place.line,
        "pair": pair
    })
}

/// A condition of a decision, with the least pair of the level's kind.
fn judged_condition(
    alloc: Global,
    level: Level,
    dec: &Graph,
    vectors: &[Vector],
    entry: &DecEntry,
    c: usize,
    place: Place,
) -> Result<Value, AllocError>
    requires graph { dec.now ≡ graph (expr_of entry.now) }
    requires condition { c < length dec.now }
    requires vectors { Everywhere (IsPathVector dec.now) vectors.now }
    ensures { IfOk result (λ v. view v
        ≡ condition_object (size (expr_of entry.now)) place (shown_pair level (expr_of entry.now) vectors.now c)) }
{
    let conditions = dec.conditions();
    let pair = shown_pair(level, dec, vectors, CondIx(c as u8));
    condition_value(alloc, conditions, place, pair)
}

/// The conditions of a decision.
fn condition_values(
    alloc: Global,
    level: Level,
    dec: &Graph,
    vectors: &[Vector],
    entry: &DecEntry,
) -> Result<Vec<Value>, AllocError>
    requires graph { dec.now ≡ graph (expr_of entry.now) }
    requires conditions { length entry.now.conditions ≡ length dec.now }
    requires vectors { Everywhere (IsPathVector dec.now) vectors.now }
    ensures { IfOk result (λ vs. map view vs.items
        ≡ condition_objects level (expr_of entry.now) vectors.now entry.now.conditions) }
{
    let mut values = Vec::new(alloc);
    for (c, place) in entry.conditions.as_slice().iter().enumerate() {
        values.push(judged_condition(alloc, level, dec, vectors, entry, c, *place)?)?;
    }
    Ok(values)
}

/// The conditions of a decision, where a level asks for their pairs.
pub(crate) fn asked_conditions(
    alloc: Global,
    level: Level,
    dec: &Graph,
    vectors: &[Vector],
    entry: &DecEntry,
) -> Result<Vec<Value>, AllocError>
    requires graph { dec.now ≡ graph (expr_of entry.now) }
    requires conditions { length entry.now.conditions ≡ length dec.now }
    requires vectors { Everywhere (IsPathVector dec.now) vectors.now }
    ensures { IfOk result (λ vs. map view vs.items
        ≡ asked_conditions level (expr_of entry.now) vectors.now entry.now.conditions) }
{
    if asks_pairs(level) {
        condition_values(alloc, level, dec, vectors, entry)
    } else {
        Ok(Vec::new(alloc))
    }
}
