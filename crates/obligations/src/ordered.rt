//! Entries in the order of their places.

ghost use Rattle.std.specs.Prelude.{◌≡◌, OnOk};
ghost use Rattle.ada_meaning.specs.Obligations.{in_order};
ghost use Rattle.obligations.specs.Ordered.{statement_before, decision_before, statement_place, decision_place};

use cov_base::{DecEntry, Pos, StmtEntry};
use std::alloc::AllocError;

/// Where a statement obligation stands.
fn statement_place(entry: &StmtEntry) -> Pos
    ensures { result ≡ statement_place entry.now }
{
    Pos {
        file: entry.file,
        line: entry.line,
        col: entry.column,
    }
}

/// Where a decision stands.
fn decision_place(entry: &DecEntry) -> Pos
    ensures { result ≡ decision_place entry.now }
{
    Pos {
        file: entry.file,
        line: entry.line,
        col: entry.column,
    }
}

/// Puts the entries of statements in the order of their places.
pub(crate) fn sort_statements(entries: &mut Vec<StmtEntry>) -> Result<(), AllocError>
    ensures { OnOk result (entries.new.items ≡ in_order statement_before entries.old.items) }
{
    entries.sort_by_key(|entry| statement_place(entry))
}

/// Puts the entries of decisions in the order of their places: an outer one stays before those nested in
/// it that begin at the same place.
pub(crate) fn sort_decisions(entries: &mut Vec<DecEntry>) -> Result<(), AllocError>
    ensures { OnOk result (entries.new.items ≡ in_order decision_before entries.old.items) }
{
    entries.sort_by_key(|entry| decision_place(entry))
}
