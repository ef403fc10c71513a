//! What coverage leaves to show of an obligation, and the order in which it is told.

ghost use Rattle.std.specs.Prelude.{◌≡◌, OnOk};
ghost use Rattle.annotated_report.specs.Order.{in_order};

use cov_base::{Bytes, Pos};
use std::alloc::AllocError;

/// An obligation by its numbers: a condition by that of its decision, and its place in it.
#[derive(Clone, Copy, PartialEq, Eq, PartialOrd, Ord)]
pub enum Subject {
    /// A statement.
    Statement(usize),
    /// A decision.
    Decision(usize),
    /// A condition of a decision.
    Condition(usize, usize),
}

/// Where an obligation stands, and which it is. Lines of a report are in this order.
#[derive(Clone, Copy, PartialEq, Eq, PartialOrd, Ord)]
pub struct Key {
    pub pos: Pos,
    pub subject: Subject,
}

/// What is missing of an obligation that is not covered.
#[derive(Clone, Copy, PartialEq, Eq)]
pub enum Missing {
    /// The statement was not executed.
    Execution,
    /// The decision was never evaluated.
    Evaluation,
    /// The decision never gave this outcome.
    Outcome(bool),
    /// No pair of vectors shows the condition to matter.
    Pair,
}

/// An obligation that is not covered, and what is missing.
#[derive(Clone, Copy, PartialEq, Eq)]
pub struct Finding {
    pub key: Key,
    pub missing: Missing,
}

/// A pair of vectors that shows a condition to matter: where the condition stands, and the vectors as
/// text.
pub struct PairLine {
    pub key: Key,
    pub text: Bytes,
}

// Written out: a derived drop is proved anew in each crate above.
impl Drop for PairLine {
    fn drop(self) {
        let PairLine { key: _, text: _ } = self;
    }
}

/// Puts findings into the order in which they are told.
pub(crate) fn sort(findings: &mut Vec<Finding>) -> Result<(), AllocError>
    ensures { OnOk result (findings.new.items ≡ in_order (λ f. f.key) findings.old.items) }
{
    findings.sort_by_key(|finding| finding.key)
}

/// Puts the lines of pairs into the order in which they are told.
pub(crate) fn sort_pairs(lines: &mut Vec<PairLine>) -> Result<(), AllocError>
    ensures { OnOk result (lines.new.items ≡ in_order (λ line. line.key) lines.old.items) }
{
    lines.sort_by_key(|line| line.key)
}
