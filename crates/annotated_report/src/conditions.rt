//! Conditions, and the pairs of vectors that show them to matter.

ghost use Rattle.std.specs.Prelude.{◌≡◌, ◌<◌, ◌≤◌, ◌++◌, length, OnOk};
ghost use Rattle.cov_base.specs.Graph.{graph};
ghost use Rattle.cov_base.specs.Lists.{Everywhere};
ghost use Rattle.cov_base.specs.Path.{IsPathVector};
ghost use Rattle.mcdc_verdicts.specs.View.{pair_view};
ghost use Rattle.annotated_report.specs.Findings.{expr_of, condition_key, pair_finding, finding_of_condition, unpaired};
ghost use Rattle.annotated_report.specs.Shown.{pair_line, line_of_condition, paired};
ghost use Rattle.annotated_report.specs.Verdicts.{is_covered};

use crate::finding::{Finding, Key, Missing, PairLine, Subject};
use crate::shown::pair_text;
use crate::verdict::shown_pair;
use condition_graph::Graph;
use cov_base::{CondIx, DecEntry, Level, Place, Pos, Vector};
use std::alloc::{AllocError, Global};

/// What was found so far: what is left to show, and the pairs that are shown.
pub struct Found {
    pub findings: Vec<Finding>,
    pub pairs: Vec<PairLine>,
}

// Written out: a derived drop is proved anew in each crate above.
impl Drop for Found {
    fn drop(self) {
        let Found {
            findings: _,
            pairs: _,
        } = self;
    }
}

/// Adds the pair that shows a condition to matter; where there is none and its decision is covered,
/// that it lacks one.
fn add_pair(
    alloc: Global,
    found: &mut Found,
    conditions: usize,
    covered: bool,
    key: Key,
    pair: Option<(Vector, Vector)>,
) -> Result<(), AllocError>
    requires { conditions ≤ 32 }
    ensures findings { OnOk result (found.new.findings.items ≡ found.old.findings.items ++ pair_finding covered key (pair_view pair)) }
    ensures pairs { OnOk result (found.new.pairs.items ≡ found.old.pairs.items ++ pair_line conditions key (pair_view pair)) }
{
    match pair {
        Some(pair) => {
            let text = pair_text(alloc, conditions, pair)?;
            found.pairs.push(PairLine { key, text })?;
            Ok(())
        }
        None if covered => {
            let missing = Missing::Pair;
            found.findings.push(Finding { key, missing })?;
            Ok(())
        }
        None => Ok(()),
    }
}

/// Where a condition of a decision stands, and which it is.
fn condition_key(number: usize, entry: &DecEntry, c: usize, place: Place) -> Key
    ensures { result ≡ condition_key number entry.now c place }
{
    let pos = Pos {
        file: entry.file,
        line: place.line,
        col: place.column,
    };
    Key {
        pos,
        subject: Subject::Condition(number, c),
    }
}

/// Adds what a level shows of a condition of a decision, or lacks.
fn judge_condition(
    alloc: Global,
    found: &mut Found,
    level: Level,
    dec: &Graph,
    vectors: &[Vector],
    covered: bool,
    number: usize,
    entry: &DecEntry,
    c: usize,
    place: Place,
) -> Result<(), AllocError>
    requires graph { dec.now ≡ graph (expr_of entry.now) }
    requires condition { c < length dec.now }
    requires vectors { Everywhere (IsPathVector dec.now) vectors.now }
    requires covered { covered ≡ is_covered (expr_of entry.now) vectors.now }
    ensures findings { OnOk result (found.new.findings.items
        ≡ found.old.findings.items ++ finding_of_condition level vectors.now number entry.now c place) }
    ensures pairs { OnOk result (found.new.pairs.items
        ≡ found.old.pairs.items ++ line_of_condition level vectors.now number entry.now c place) }
{
    let key = condition_key(number, entry, c, place);
    let conditions = dec.conditions();
    let pair = shown_pair(level, dec, vectors, CondIx(c as u8));
    add_pair(alloc, found, conditions, covered, key, pair)
}

/// Adds what a level shows of the conditions of a decision, and what they lack.
pub(crate) fn judge_conditions(
    alloc: Global,
    found: &mut Found,
    level: Level,
    dec: &Graph,
    vectors: &[Vector],
    covered: bool,
    number: usize,
    entry: &DecEntry,
) -> Result<(), AllocError>
    requires graph { dec.now ≡ graph (expr_of entry.now) }
    requires conditions { length entry.now.conditions ≡ length dec.now }
    requires vectors { Everywhere (IsPathVector dec.now) vectors.now }
    requires covered { covered ≡ is_covered (expr_of entry.now) vectors.now }
    ensures findings { OnOk result (found.new.findings.items ≡ found.old.findings.items ++ unpaired level vectors.now number entry.now) }
    ensures pairs { OnOk result (found.new.pairs.items ≡ found.old.pairs.items ++ paired level vectors.now number entry.now) }
{
    for (c, place) in entry.conditions.as_slice().iter().enumerate() {
        judge_condition(
            alloc, found, level, dec, vectors, covered, number, entry, c, *place,
        )?;
    }
    Ok(())
}
