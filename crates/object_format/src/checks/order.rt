//! The orders in which entries stand.

ghost use Rattle.std.specs.Prelude.{◌≡◌, ◌&&◌};
ghost use Rattle.object_format.specs.Order.{is_below, is_at_most};
ghost use Rattle.spelling.specs.Checks.{rising};
ghost use Rattle.object_format.specs.Fields.{statement_key, decision_key, region_key, is_clear_of};

use cov_base::{DecEntry, Region, StmtEntry};

/// What statements are ordered by.
fn statement_key(statement: &StmtEntry) -> [u32; 3]
    ensures { result ≡ statement_key statement.now }
{
    [statement.file, statement.line, statement.column]
}

/// What decisions are ordered by.
fn decision_key(decision: &DecEntry) -> [u32; 3]
    ensures { result ≡ decision_key decision.now }
{
    [decision.file, decision.line, decision.column]
}

/// What regions are ordered by.
fn region_key(region: &Region) -> [u32; 5]
    ensures { result ≡ region_key region.now }
{
    [
        region.file,
        region.from_line,
        region.from_column,
        region.to_line,
        region.to_column,
    ]
}

/// Whether the region `next` begins in a later file or behind the end of `one`.
fn is_clear_of(one: &Region, next: &Region) -> bool
    ensures { result ≡ is_clear_of one.now next.now }
{
    [one.file, one.to_line, one.to_column] < [next.file, next.from_line, next.from_column]
}

/// Whether each statement stands before the next.
pub(crate) fn statements_rise(statements: &[StmtEntry]) -> bool
    ensures { result ≡ rising (λ one next. is_below (statement_key one) (statement_key next)) statements.now }
{
    statements.is_sorted_by(|one, next| statement_key(one) < statement_key(next))
}

/// Whether no decision begins before an earlier one.
pub(crate) fn decisions_stay(decisions: &[DecEntry]) -> bool
    ensures { result ≡ rising (λ one next. is_at_most (decision_key one) (decision_key next)) decisions.now }
{
    decisions.is_sorted_by(|one, next| decision_key(one) <= decision_key(next))
}

/// Whether each region stands before the next, and has no point in common with it.
pub(crate) fn regions_rise(regions: &[Region]) -> bool
    ensures { result ≡ rising (λ one next. is_below (region_key one) (region_key next) && is_clear_of one next) regions.now }
{
    regions.is_sorted_by(|one, next| region_key(one) < region_key(next) && is_clear_of(one, next))
}
