//! The check `row`: the rows fit the text, and no start has two.

ghost use Rattle.std.specs.Prelude.{◌≡◌, ◌≢◌, ◌↔◌, IsTrue, IfOk, map, nat_lt, AllPairs};
ghost use Rattle.std.specs.List.{list_all};
ghost use Rattle.std.specs.BTreeSet.{IsFromIterResult};
ghost use Rattle.object_format.specs.Keys.{pair_cmp};
ghost use Rattle.spelling.specs.Checks.{rising};
ghost use Rattle.object_format.specs.RowCheck.{start_of, is_in, PassesRow};

use crate::checks::text::is_in_text;
use crate::object::Object;
use line_table::Row;
use std::alloc::{AllocError, Global};
use std::collections::BTreeSet;

/// Whether the rows stand at instructions, their addresses rise, and no two start one statement in
/// one instance.
pub(crate) fn passes_row(alloc: Global, value: &Object) -> Result<bool, AllocError>
    ensures { IfOk result (λ passes. IsTrue passes ↔ PassesRow value.now) }
{
    let rows = value.rows.as_slice();
    if !are_in_text(rows, value.text.as_slice()) || !addresses_rise(rows) {
        return Ok(false);
    }
    are_started_once(alloc, rows)
}

fn are_in_text(rows: &[Row], text: &[u32]) -> bool
    ensures { result ≡ list_all (is_in text.now) rows.now }
{
    rows.iter().all(|row| is_in_text(text, row.address))
}

fn addresses_rise(rows: &[Row]) -> bool
    ensures { result ≡ rising (λ one next. nat_lt one.address next.address) rows.now }
{
    rows.is_sorted_by(|one, next| one.address < next.address)
}

/// Whether no two rows start one statement in one instance.
fn are_started_once(alloc: Global, rows: &[Row]) -> Result<bool, AllocError>
    ensures { IfOk result (λ once. IsTrue once ↔ AllPairs (λ one next. one ≢ next) (map start_of rows.now)) }
{
    Ok(starts(alloc, rows)?.len() == rows.len())
}

fn starts(alloc: Global, rows: &[Row]) -> Result<BTreeSet<(u32, u32)>, AllocError>
    ensures { IfOk result (IsFromIterResult pair_cmp (map start_of rows.now)) }
{
    rows.iter()
        .map(|row| (row.statement.0, row.instance.0))
        .collect(alloc)
}
