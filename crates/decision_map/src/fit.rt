//! The checks that hold a trace to its object, in their order.

ghost use Rattle.std.specs.Prelude.{◌≡◌, ◌<◌, ◌≤◌, ◌%◌, ◌&&◌, ◌==◌, not, length, IfSome, Some, None, true};
ghost use Rattle.std.specs.List.{list_any};
ghost use Rattle.std.specs.Result.{result_err};
ghost use Rattle.cov_base.specs.Marks.{same};
ghost use Rattle.trace_format.specs.declared.trace.Block.{Block};
ghost use Rattle.decision_map.specs.Blocks.{is_block, agrees, shows_edge, shows_entry, AreOrdered, AreFlat};
ghost use Rattle.decision_map.specs.Fits.{foreign, beyond_exceptions, not_a_block, wrong_edge, wrong_address, not_flat, fault_of};
ghost use Rattle.decision_map.specs.Mapped.{AreKinds};
ghost use Rattle.decision_map.specs.Roles.{IsMappable};
ghost use Rattle.decision_map.specs.Kinds.{has_edges, keeps_history, kind_in};

use crate::blocks::block_end;
use crate::fault::FitFault;
use crate::kind::WordKind;
use crate::places::kind_in;
use object_format::Object;
use trace_format::{Block, HistoryEntry, NOT_TAKEN, TAKEN, TraceView};

/// Whether the trace is this object's. The blocks of every view rise, which the later checks need.
fn check_object(object: &Object, view: &TraceView<'_>) -> Result<(), FitFault>
    ensures fault { result_err result ≡ foreign object.now view.now }
    ensures ordered { AreOrdered view.now.blocks }
{
    let kept = view.object();
    if kept != object.closing {
        return Err(FitFault::Foreign {
            kept,
            object: object.closing,
        });
    }
    Ok(())
}

/// Whether the object holds the exception by which the run ended.
fn check_ending(object: &Object, view: &TraceView<'_>) -> Result<(), FitFault>
    ensures { result_err result ≡ beyond_exceptions object.now view.now }
{
    if view.ending() as usize > object.obligations.exceptions.len() {
        return Err(FitFault::Ending);
    }
    Ok(())
}

/// Whether a block is one of the text, where `before` is one that starts before it.
///
/// A block that starts inside another ends with that one. So the words of blocks that rise by their
/// starts are looked at once.
fn is_block(kinds: &[WordKind], before: Option<Block>, block: Block) -> bool
    requires few { length kinds.now ≤ 4194304 }
    requires before { IfSome before (λ known. (is_block kinds.now known ≡ true) × (known.start < block.start)) }
    requires aligned { block.start % 4 ≡ 0 }
    ensures { result ≡ is_block kinds.now block }
{
    match before {
        Some(known) if block.start <= known.last => block.last == known.last,
        _ => block_end(kinds, block.start) == Some(block.last),
    }
}

/// Whether the blocks are those of the text.
fn check_blocks(kinds: &[WordKind], view: &TraceView<'_>) -> Result<(), FitFault>
    requires few { length kinds.now ≤ 4194304 }
    requires ordered { AreOrdered view.now.blocks }
    ensures { result_err result ≡ not_a_block kinds.now view.now.blocks }
{
    let mut before = None;
    for at in 0..view.blocks() {
        let block = view.block(at);
        if !is_block(kinds, before, block) {
            return Err(FitFault::NotABlock { start: block.start });
        }
        before = Some(block);
    }
    Ok(())
}

/// Whether a block has flags exactly where it ends with a conditional branch, and those of the block
/// before it where both end there.
fn has_its_flags(kinds: &[WordKind], before: Option<Block>, block: Block) -> bool
    ensures { result ≡ (same (not (block.flags == 0))
        (has_edges (kind_in kinds.now block.last)) && agrees before block) }
{
    (block.flags != 0) == kind_in(kinds, block.last).has_edges()
        && before.is_none_or(|known| known.last != block.last || known.flags == block.flags)
}

/// Whether the flags are those of the blocks' ends. Ends of blocks don't fall, so the blocks that
/// end where one does stand directly before it.
fn check_edges(kinds: &[WordKind], view: &TraceView<'_>) -> Result<(), FitFault>
    requires ordered { AreOrdered view.now.blocks }
    requires blocks { not_a_block kinds.now view.now.blocks ≡ None }
    ensures { result_err result ≡ wrong_edge kinds.now view.now.blocks }
{
    let mut before = None;
    for at in 0..view.blocks() {
        let block = view.block(at);
        if !has_its_flags(kinds, before, block) {
            return Err(FitFault::Edge { start: block.start });
        }
        before = Some(block);
    }
    Ok(())
}

/// Whether the history is that of branches whose executions are kept.
fn check_addresses(kinds: &[WordKind], view: &TraceView<'_>) -> Result<(), FitFault>
    ensures { result_err result ≡ wrong_address (λ pc. keeps_history (kind_in kinds.now pc)) view.now.history }
{
    for at in 0..view.history() {
        if !kind_in(kinds, view.entry(at).address).keeps_history() {
            return Err(FitFault::HistoryAddress { at });
        }
    }
    Ok(())
}

/// Whether flags have an edge.
pub(crate) fn shows_edge(flags: u8, edge: u8) -> bool
    ensures { result ≡ shows_edge flags edge }
{
    let mask = if edge == 0 { NOT_TAKEN } else { TAKEN };
    flags & mask != 0
}

/// Whether a block that ends at an entry's branch shows its edge.
fn is_shown(view: &TraceView<'_>, entry: HistoryEntry) -> bool
    requires { AreFlat view.now.blocks }
    ensures { result ≡ list_any (shows_entry entry) view.now.blocks }
{
    let mut low = 0;
    let mut high = view.blocks();
    while low < high {
        let middle = low + (high - low) / 2;
        let block = view.block(middle);
        if block.last == entry.address {
            return shows_edge(block.flags, entry.edge);
        }
        if block.last < entry.address {
            low = middle + 1;
        } else {
            high = middle;
        }
    }
    false
}

/// Whether blocks show each edge of the history.
fn check_edges_of_history(view: &TraceView<'_>) -> Result<(), FitFault>
    requires { AreFlat view.now.blocks }
    ensures { result_err result ≡ not_flat view.now.blocks view.now.history }
{
    for at in 0..view.history() {
        if !is_shown(view, view.entry(at)) {
            return Err(FitFault::HistoryNotFlat { at });
        }
    }
    Ok(())
}

/// Whether a trace fits an object whose words are of these kinds.
pub(crate) fn check(
    object: &Object,
    kinds: &[WordKind],
    view: &TraceView<'_>,
) -> Result<(), FitFault>
    requires mappable { IsMappable object.now }
    requires kinds { AreKinds object.now kinds.now }
    ensures { result_err result ≡ fault_of object.now view.now }
{
    check_object(object, view)?;
    check_ending(object, view)?;
    check_blocks(kinds, view)?;
    check_edges(kinds, view)?;
    check_addresses(kinds, view)?;
    check_edges_of_history(view)
}
