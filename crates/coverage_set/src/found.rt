//! What the blocks and the history of a trace say, as they come.

ghost use Rattle.std.specs.Prelude.{◌≡◌, ◌↔◌, ◌⊎◌, ◌++◌, ◌<◌, ◌-◌, ◌^◌, [], ◌∷◌, List, length, IfOk, OnOk};
ghost use Rattle.cov_base.specs.declared.event.Event.{Event};
ghost use Rattle.cov_base.specs.Lists.{Somewhere};
ghost use Rattle.object_facts.specs.Object.{facts_of};
ghost use Rattle.object_format.specs.Checked.{IsSound};
ghost use Rattle.object_format.specs.declared.object.Object.{Object};
ghost use Rattle.trace_format.specs.declared.trace.Block.{Block};
ghost use Rattle.trace_format.specs.declared.trace.HistoryEntry.{HistoryEntry};
ghost use Rattle.vector_rebuild.specs.Entries.{block_of};
ghost use Rattle.vector_rebuild.specs.Flagged.{BlockSays};
ghost use Rattle.coverage_set.specs.Read.{Finds};

use crate::gathered::Gathered;
use crate::replay::Replay;
use crate::row_starts::RowStarts;
use crate::said::add;
use crate::set::SortedSet;
use cov_base::Event;
use decision_map::DecisionMap;
use std::alloc::{AllocError, Global};
use trace_format::{Block, HistoryEntry};
use vector_rebuild::edge_event;

/// What was found so far: the statements whose rows stand in blocks, the evaluations that flags of
/// blocks show, and those that the history tells.
#[derive(Drop)]
pub struct Found {
    starts: RowStarts,
    flagged: Gathered<Event>,
    replay: Replay,
}

impl Found {
    /// Nothing was seen.
    pub fn new(alloc: Global) -> Self
        ensures { (o : Object) → Finds o result [] [] }
    {
        Found {
            starts: RowStarts::new(alloc),
            flagged: Gathered::new(alloc),
            replay: Replay::new(alloc),
        }
    }

    /// Takes the next block.
    pub fn see_block(&mut self, map: &DecisionMap<'_>, block: Block) -> Result<(), AllocError>
        requires { IsSound map.now }
        ensures { OnOk result ((blocks : List Block) (history : List HistoryEntry)
            → Finds map.now self.old blocks history
            → Finds map.now self.new (blocks ++ block ∷ []) history) }
    {
        self.starts.see(map.object(), block)?;
        add_flagged(&mut self.flagged, map, block)
    }

    /// Takes the next entry of the history.
    pub fn see_history(
        &mut self,
        map: &DecisionMap<'_>,
        entry: HistoryEntry,
    ) -> Result<(), AllocError>
        requires { IsSound map.now }
        ensures { OnOk result ((blocks : List Block) (history : List HistoryEntry) → length history < 2 ^ 32 - 1
            → Finds map.now self.old blocks history → Finds map.now self.new blocks (history ++ entry ∷ [])) }
    {
        self.replay.see(map, entry)
    }

    /// The place of the entry of the history at which its replay stopped.
    pub fn stopped(&self) -> Option<u32>
        ensures { result ≡ self.now.replay.stopped }
    {
        self.replay.stopped()
    }

    /// All events that were found.
    pub fn into_events(self) -> Result<SortedSet<Event>, AllocError>
        ensures { IfOk result (λ set. (e : Event) → Somewhere (λ x. x ≡ e) set
            ↔ Somewhere (λ x. x ≡ e) ((self.replay.events ++ self.flagged) ++ self.starts.events.items)) }
    {
        let mut events = self.replay.into_events();
        events.add_all(self.flagged.as_slice())?;
        events.add_all(self.starts.as_slice())?;
        Ok(events.into_set())
    }
}

/// Adds the evaluations that a block's flags show.
fn add_flagged(
    events: &mut Gathered<Event>,
    map: &DecisionMap<'_>,
    block: Block,
) -> Result<(), AllocError>
    requires { IsSound map.now }
    ensures { OnOk result ((e : Event) → Somewhere (λ x. x ≡ e) events.new
        ↔ (Somewhere (λ x. x ≡ e) events.old ⊎ BlockSays (facts_of map.now) (block_of block) e)) }
{
    add(events, edge_event(map, block, true))?;
    add(events, edge_event(map, block, false))
}
