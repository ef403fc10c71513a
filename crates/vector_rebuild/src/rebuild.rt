//! Vectors rebuilt from a history, entry by entry.

ghost use Rattle.std.specs.Prelude.{◌≡◌, ◌≢◌, ◌++◌, ◌+◌, ◌<◌, ◌≤◌, ◌-◌, ◌^◌, List, [], ◌∷◌, length, option_to_list, true, IfOk, IfErr, OnOk, OnErr, IsOk, Some, Err, if◌then◌else◌};
ghost use Rattle.std.specs.Option.{option_map};
ghost use Rattle.cov_base.specs.declared.failure.Failure.TheVariants.{WantOfMemory};
ghost use Rattle.condition_graph.specs.Target.{place_of};
ghost use Rattle.decision_map.specs.Roles.{needs_history};
ghost use Rattle.object_facts.specs.Object.{facts_of};
ghost use Rattle.object_format.specs.Checked.{IsSound};
ghost use Rattle.transcript.specs.Computed.{done_at};
ghost use Rattle.transcript.specs.Facts.{Facts};
ghost use Rattle.transcript.specs.Replay.{begun, put_half, half_by, over_by};
ghost use Rattle.transcript.specs.Trace.{visit_in};
ghost use Rattle.transcript.specs.Visit.{Key as Activation, onto};
ghost use Rattle.trace_format.specs.declared.trace.HistoryEntry.{HistoryEntry};
ghost use Rattle.vector_rebuild.specs.Entries.{branched_of};
ghost use Rattle.vector_rebuild.specs.Kept.{same, half_in};
ghost use Rattle.vector_rebuild.specs.Rebuilt.{visit_as, half_as, key_in, kept_of, count_of, visits_of, taken_by, under_way, room_of, IsOff, IsAsBefore, IsEventOf, IsRefusedAfter, Rebuilds};

use crate::fault::BrokenHistory;
use crate::half::{Half, begun, with_step};
use crate::halves::Halves;
use crate::visit::{Key, Visit, visit_of};
use condition_graph::Next;
use cov_base::{CondIx, Event, Failure, Vector};
use decision_map::{DecisionMap, RoleHints};
use std::alloc::{AllocError, Global};
use trace_format::HistoryEntry;

/// What is kept while a history is fed: of each key the evaluation that is under way, where roles were
/// found, and how many entries were fed.
pub struct Rebuild {
    halves: Halves,
    hints: RoleHints,
    fed: u32,
}

// Written out: a derived drop is proved anew in each crate above.
impl Drop for Rebuild {
    fn drop(self) {
        let Rebuild {
            halves: _,
            hints: _,
            fed: _,
        } = self;
    }
}

impl Rebuild {
    /// Nothing was fed.
    pub fn new(alloc: Global) -> Self
        ensures fed { (o : Facts) → Rebuilds o result [] }
        ensures count { count_of result ≡ 0 }
    {
        Rebuild {
            halves: Halves::new(alloc),
            hints: RoleHints::new(),
            fed: 0,
        }
    }

    /// How many entries were fed.
    pub fn fed(&self) -> u32
        ensures { result ≡ count_of self.now }
    {
        self.fed
    }

    /// Makes room for so many entries: they can be fed without memory.
    pub fn reserve(&mut self, more: u32) -> Result<(), AllocError>
        ensures room { OnOk result (more ≤ room_of self.new) }
        ensures kept { IsAsBefore self.old self.new }
        ensures fed { (o : Facts) (fed : List HistoryEntry) → Rebuilds o self.old fed → Rebuilds o self.new fed }
        ensures more { room_of self.old ≤ room_of self.new }
    {
        self.halves.reserve(more as usize)
    }

    /// The vector with which an evaluation of a key comes to a node, if one does. To the root a new one
    /// comes, so nothing is looked up for it.
    #[inline(always)]
    fn coming(&self, key: Key, node: CondIx) -> Option<Vector>
        ensures { result ≡ begun (option_map half_as (half_in self.now.halves key)) node.0 }
    {
        if node.0 == 0 {
            return begun(None, node);
        }
        begun(self.halves.find(key), node)
    }

    /// Keeps an evaluation that has come to a node, or answers its vector where it has come to an
    /// outcome, and keeps nothing.
    #[inline(always)]
    fn keep(&mut self, key: Key, next: Next, vector: Vector) -> Result<Option<Vector>, AllocError>
        ensures answer { IfOk result (λ completed. completed ≡ over_by (place_of next) vector) }
        ensures after { OnOk result ((k : Activation) → kept_of self.new k
            ≡ (if same key (key_in k) then half_by (place_of next) vector else kept_of self.old k)) }
        ensures count { self.new.fed ≡ self.old.fed }
        ensures err { OnErr result (IsAsBefore self.old self.new) }

        // With room for it no memory is taken.
        ensures roomy { 0 < room_of self.old → IsOk result }
        ensures room { room_of self.old ≤ room_of self.new + 1 }
    {
        match next {
            Next::Node(next) => {
                self.halves.put(key, Some(Half { vector, next }))?;
                Ok(None)
            }
            Next::Leaf(_) => {
                self.halves.put(key, None)?;
                Ok(Some(vector))
            }
        }
    }

    /// Takes a step whose edge leads to `next`, and answers the vector of the evaluation that it
    /// completes.
    #[inline(always)]
    fn take(&mut self, visit: &Visit, next: Next) -> Result<Option<Vector>, Failure<BrokenHistory>>
        requires node { visit.now.step.node.0 < 32 }
        requires few { count_of self.old < 2 ^ 32 - 1 }
        ensures answer { IfOk result (λ completed. taken_by (place_of next) (visit_as visit.now).step
            (begun (kept_of self.old (visit_as visit.now).key) visit.now.step.node.0) ≡ Some completed) }
        ensures after { OnOk result ((k : Activation)
            → kept_of self.new k ≡ put_half (kept_of self.old) (visit_as visit.now).key
            (under_way (place_of next) (visit_as visit.now).step
            (begun (kept_of self.old (visit_as visit.now).key) visit.now.step.node.0)) k) }
        ensures count { OnOk result (self.new.fed ≡ self.old.fed + 1) }
        ensures off { IfErr result (IsOff self.old.fed
            (begun (kept_of self.old (visit_as visit.now).key) visit.now.step.node.0)) }
        ensures err { OnErr result (IsAsBefore self.old self.new) }
        ensures roomy { 0 < room_of self.old → result ≢ Err WantOfMemory }
        ensures room { room_of self.old ≤ room_of self.new + 1 }
    {
        let key = visit.key();
        let Some(coming) = self.coming(key, visit.step.node) else {
            return Err(Failure::Fault(BrokenHistory { at: self.fed }));
        };
        let completed = self.keep(key, next, with_step(coming, visit.step))?;
        self.fed += 1;
        Ok(completed)
    }

    /// Feeds the next entry of a history, and answers the evaluation that it completes.
    pub fn feed(
        &mut self,
        map: &DecisionMap<'_>,
        entry: HistoryEntry,
    ) -> Result<Option<Event>, Failure<BrokenHistory>>
        // All calls are given one map, of an object that passed its checks.
        requires sound { IsSound map.now }
        requires needed { needs_history map.now entry.address ≡ true }
        requires few { count_of self.old < 2 ^ 32 - 1 }

        // Of entries that were fed, the rebuild then holds these and this one. So it follows.
        ensures fed { OnOk result ((fed : List HistoryEntry) → Rebuilds (facts_of map.now) self.old fed
            → Rebuilds (facts_of map.now) self.new (fed ++ entry ∷ [])) }

        ensures count { OnOk result (count_of self.new ≡ count_of self.old + 1) }

        // There is an event exactly where the entry completes an evaluation, with its vector.
        ensures event { IfOk result (λ event. (fed : List HistoryEntry) → Rebuilds (facts_of map.now) self.old fed
            → IsEventOf (facts_of map.now) fed entry event) }
        ensures computed { IfOk result (λ event. (fed : List HistoryEntry) → Rebuilds (facts_of map.now) self.old fed
            → option_to_list event ≡ done_at (facts_of map.now) (onto (visits_of (facts_of map.now) fed) [])
            (visit_in (facts_of map.now) (branched_of entry))) }

        // It is refused exactly where it follows none of them.
        ensures broken { IfErr result (λ failure. (fed : List HistoryEntry) → Rebuilds (facts_of map.now) self.old fed
            → IsRefusedAfter (facts_of map.now) fed entry failure) }
        ensures refused { OnErr result (IsAsBefore self.old self.new) }

        // With room for it no memory is taken, and room for at most one entry is used.
        ensures roomy { 0 < room_of self.old → result ≢ Err WantOfMemory }
        ensures room { room_of self.old ≤ room_of self.new + 1 }
    {
        let visit = visit_of(map, &mut self.hints, entry);
        let next = map
            .graph(visit.decision)
            .next(visit.step.node, visit.step.value);
        let completed = self.take(&visit, next)?;
        Ok(visit.event(completed))
    }
}
