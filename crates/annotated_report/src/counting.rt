//! The totals of a report by themselves.

ghost use Rattle.std.specs.Prelude.{◌≡◌, ◌++◌, length, IfOk, OnOk};
ghost use Rattle.annotated_report.specs.Caller.{AreEvaluated, AreOfStatements};
ghost use Rattle.annotated_report.specs.Totals.{conditions_total, counted_totals, totals_alone};

use crate::judgement::{Judged, condition_count, judge};
use crate::lines::put_total;
use crate::printing::put_decisions;
use crate::words::asks_pairs;
use cov_base::{Event, Level, Obligations};
use std::alloc::{AllocError, Global};

/// Appends the totals of conditions, where a level asks for them.
fn put_condition_total(
    alloc: Global,
    text: &mut Vec<u8>,
    level: Level,
    shown: usize,
    all: u128,
) -> Result<(), AllocError>
    ensures { OnOk result (text.new.items ≡ text.old.items ++ conditions_total level shown all) }
{
    if asks_pairs(level) {
        put_total(alloc, text, "conditions: ", shown, all)
    } else {
        Ok(())
    }
}

/// Appends the totals of what was judged, without the pairs.
fn put_counted(
    alloc: Global,
    text: &mut Vec<u8>,
    level: Level,
    obligations: &Obligations,
    judged: &Judged,
) -> Result<(), AllocError>
    ensures { OnOk result (text.new.items ≡ text.old.items ++ counted_totals level obligations.now
        judged.now.statements judged.now.decisions (length judged.now.found.pairs.items)) }
{
    let statements = obligations.statements.len();
    let decisions = obligations.decisions.len();
    let conditions = condition_count(obligations.decisions.as_slice());
    let pairs = judged.found.pairs.as_slice();
    put_total(
        alloc,
        text,
        "statements: ",
        judged.statements,
        statements as u128,
    )?;
    put_decisions(alloc, text, level, judged.decisions, decisions)?;
    put_condition_total(alloc, text, level, pairs.len(), conditions)
}

/// The lines that tell how many statements, decisions and conditions events cover, of all, as far as a
/// level asks for them. They are those of the report at that level, which tells the pairs besides.
pub fn covered_totals(
    alloc: Global,
    level: Level,
    obligations: &Obligations,
    events: &[Event],
) -> Result<Vec<u8>, AllocError>
    requires statements { AreOfStatements obligations.now.decisions (length obligations.now.statements) }
    requires evaluated { AreEvaluated obligations.now.decisions events.now }
    ensures { IfOk result (λ text. text.items ≡ totals_alone level obligations.now events.now) }
{
    let judged = judge(alloc, level, obligations, events)?;
    let mut text = Vec::new(alloc);
    put_counted(alloc, &mut text, level, obligations, &judged)?;
    Ok(text)
}
