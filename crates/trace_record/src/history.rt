//! The history of a run: the executed branches of decisions whose graph is no tree.

ghost use Rattle.std.specs.Prelude.{◌≡◌, ◌++◌, OnOk, OnErr, IsOk, false, None, if◌then◌else◌};
ghost use Rattle.decision_map.specs.Roles.{needs_history};
ghost use Rattle.transcript.specs.Trace.{branched_by};
ghost use Rattle.trace_record.specs.Recorded.{kept_entries};

use decision_map::DecisionMap;
use std::alloc::AllocError;
use trace_format::HistoryEntry;

/// Adds an executed instruction to a history, if it is a branch that needs one. It takes no memory
/// otherwise.
pub fn keep(
    map: &DecisionMap<'_>,
    history: &mut Vec<HistoryEntry>,
    pc: u32,
    edge: Option<bool>,
    x8: u32,
) -> Result<(), AllocError>
    ensures kept { OnOk result (history.new.items ≡
        history.old.items ++ kept_entries (if needs_history map.now pc then branched_by pc x8 edge else None)) }
    ensures refused { OnErr result (history.new.items ≡ history.old.items) }
    ensures needs_no_memory { needs_history map.now pc ≡ false → IsOk result }
{
    if let Some(taken) = edge
        && map.needs_history(pc)
    {
        history.push(HistoryEntry {
            address: pc,
            x8,
            edge: u8::from(taken),
        })?;
    }
    Ok(())
}
