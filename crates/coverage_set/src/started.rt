//! The statements that started, by the blocks of a trace.

ghost use Rattle.std.specs.Prelude.{◌≡◌, ◌≤◌, ◌++◌, [], ◌∷◌, List, length, slice_get, drop};
ghost use Rattle.std.specs.Prelude.{IfOk, IfSome, OnOk, if◌then◌else◌};
ghost use Rattle.std.specs.List.{list_any};
ghost use Rattle.cov_base.specs.declared.event.Event.TheVariants.{Start};
ghost use Rattle.cov_base.specs.Lists.{Everywhere};
ghost use Rattle.line_table.specs.declared.rows.Row.{Row};
ghost use Rattle.object_format.specs.Checked.{IsSound};
ghost use Rattle.coverage_set.specs.Said.{covers, starts_in, AreFrom};

use cov_base::Event;
use line_table::Row;
use object_format::Object;
use std::alloc::{AllocError, Global};
use trace_format::{Block, TraceView};

/// The starts whose rows stand inside blocks of a trace. Rows rise by address and blocks by start, so
/// each is looked at once: a block that ends before a row ends before all later ones.
pub fn starts_in(
    alloc: Global,
    object: &Object,
    view: &TraceView<'_>,
) -> Result<Vec<Event>, AllocError>
    requires { IsSound object.now }
    ensures { IfOk result (λ events. events.items ≡ starts_in view.now.blocks object.now.rows) }
{
    let mut events = Vec::new(alloc);
    let mut block = 0;
    for row in object.rows.as_slice() {
        block = first_reaching(view, block, row.address);
        add_start(&mut events, row, is_covered_at(view, block, row.address))?;
    }
    Ok(events)
}

/// The place of the first block, from a place on, that doesn't end before an address; the number of
/// blocks if there is none.
fn first_reaching(view: &TraceView<'_>, from: u32, pc: u32) -> u32
    requires { from ≤ length view.now.blocks }
    ensures within { result ≤ length view.now.blocks }
    ensures reaches { IfSome (slice_get view.now.blocks result) (λ block. pc ≤ block.last) }
    ensures passed { (rows : List Row) → AreFrom pc rows
        → starts_in (drop result view.now.blocks) rows ≡ starts_in (drop from view.now.blocks) rows }
{
    for at in from..view.blocks() {
        if view.block(at).last >= pc {
            return at;
        }
    }
    view.blocks()
}

/// Whether blocks cover an address, of which the first that doesn't end before it stands at a place.
/// The blocks behind it start above its own start, so that they cover it only if it does.
fn is_covered_at(view: &TraceView<'_>, at: u32, pc: u32) -> bool
    requires { IfSome (slice_get view.now.blocks at) (λ block. pc ≤ block.last) }
    ensures { result ≡ list_any (covers pc) (drop at view.now.blocks) }
{
    if at >= view.blocks() {
        return false;
    }
    covers(view.block(at), pc)
}

/// Whether a block covers an address.
pub fn covers(block: Block, pc: u32) -> bool
    ensures { result ≡ covers pc block }
{
    block.start <= pc && pc <= block.last
}

/// Adds the start of a row, if it is covered.
pub fn add_start(events: &mut Vec<Event>, row: &Row, is_covered: bool) -> Result<(), AllocError>
    ensures { OnOk result (events.new.items ≡
        events.old.items ++ (if is_covered then Start row.now.statement row.now.instance ∷ [] else [])) }
{
    if is_covered {
        events.push(Event::Start(row.statement, row.instance))?;
    }
    Ok(())
}
