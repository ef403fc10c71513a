//! A history that is replayed as its entries come.

ghost use Rattle.std.specs.Prelude.{◌≡◌, ◌++◌, ◌<◌, ◌-◌, ◌^◌, [], ◌∷◌, List, length, OnOk};
ghost use Rattle.object_format.specs.Checked.{IsSound};
ghost use Rattle.object_format.specs.declared.object.Object.{Object};
ghost use Rattle.trace_format.specs.declared.trace.HistoryEntry.{HistoryEntry};
ghost use Rattle.coverage_set.specs.Read.{Replays};

use crate::gathered::Gathered;
use crate::said::add;
use cov_base::{Event, Failure};
use decision_map::DecisionMap;
use std::alloc::{AllocError, Global};
use trace_format::HistoryEntry;
use vector_rebuild::Rebuild;

/// The evaluations that a history tells, up to the first entry that follows none before it or isn't kept
/// of any run. Behind that one no entry is looked at.
#[derive(Drop)]
pub struct Replay {
    rebuild: Rebuild,
    events: Gathered<Event>,
    stopped: Option<u32>,
}

impl Replay {
    /// No entry was seen.
    pub fn new(alloc: Global) -> Self
        ensures { (o : Object) → Replays o result [] }
    {
        Replay {
            rebuild: Rebuild::new(alloc),
            events: Gathered::new(alloc),
            stopped: None,
        }
    }

    /// Takes the next entry.
    pub fn see(&mut self, map: &DecisionMap<'_>, entry: HistoryEntry) -> Result<(), AllocError>
        requires { IsSound map.now }
        ensures { OnOk result ((history : List HistoryEntry) → length history < 2 ^ 32 - 1
            → Replays map.now self.old history → Replays map.now self.new (history ++ entry ∷ [])) }
    {
        if self.stopped.is_some() {
            return Ok(());
        }
        let fed = self.rebuild.fed();
        if fed == u32::MAX || !map.needs_history(entry.address) {
            self.stopped = Some(fed);
            return Ok(());
        }
        match self.rebuild.feed(map, entry) {
            Ok(event) => add(&mut self.events, event),
            Err(Failure::Fault(broken)) => {
                self.stopped = Some(broken.at);
                Ok(())
            }
            Err(Failure::WantOfMemory) => Err(AllocError),
        }
    }

    /// The place of the entry at which it stopped.
    pub fn stopped(&self) -> Option<u32>
        ensures { result ≡ self.now.stopped }
    {
        self.stopped
    }

    /// The evaluations.
    pub fn into_events(self) -> Gathered<Event>
        ensures { result ≡ self.events }
    {
        self.events
    }
}
