//! What a trace says.

ghost use Rattle.std.specs.Prelude.{◌≡◌, ◌↔◌, ◌⊎◌, [], IfOk, IfErr, OnOk, option_to_list, true};
ghost use Rattle.cov_base.specs.declared.event.Event.{Event};
ghost use Rattle.decision_map.specs.Roles.{needs_history};
ghost use Rattle.cov_base.specs.Lists.{Somewhere, Everywhere};
ghost use Rattle.object_facts.specs.Object.{facts_of};
ghost use Rattle.object_format.specs.Checked.{IsSound};
ghost use Rattle.trace_format.specs.declared.trace.HistoryEntry.{HistoryEntry};
ghost use Rattle.transcript.specs.Computed.{done_of};
ghost use Rattle.transcript.specs.Reading.{AllFollow};
ghost use Rattle.transcript.specs.Trace.{Says};
ghost use Rattle.vector_rebuild.specs.Entries.{trace_in};
ghost use Rattle.vector_rebuild.specs.Rebuilt.{visits_of};
ghost use Rattle.coverage_set.specs.Said.{IsBrokenBy};

use crate::gathered::Gathered;
use crate::set::SortedSet;
use crate::started::starts_in;
use cov_base::{Event, Failure};
use decision_map::DecisionMap;
use std::alloc::{AllocError, Global};
use trace_format::TraceView;
use vector_rebuild::{BrokenHistory, Rebuild, from_edges};

/// Adds an event, if there is one.
pub fn add(events: &mut Gathered<Event>, event: Option<Event>) -> Result<(), AllocError>
    ensures { OnOk result ((e : Event) → Somewhere (λ x. x ≡ e) events.new
        ↔ (Somewhere (λ x. x ≡ e) events.old ⊎ Somewhere (λ x. x ≡ e) (option_to_list event))) }
{
    if let Some(event) = event {
        events.add(event)?;
    }
    Ok(())
}

/// The evaluations that a history tells, or where it breaks.
fn replay(
    alloc: Global,
    map: &DecisionMap<'_>,
    view: &TraceView<'_>,
) -> Result<Gathered<Event>, Failure<BrokenHistory>>
    requires sound { IsSound map.now }
    requires kept { Everywhere (λ (h : HistoryEntry). needs_history map.now h.address ≡ true) view.now.history }
    ensures follow { OnOk result (AllFollow (facts_of map.now) [] (visits_of (facts_of map.now) view.now.history)) }
    ensures events { IfOk result (λ events. (e : Event) → Somewhere (λ x. x ≡ e) events
        ↔ Somewhere (λ x. x ≡ e) (done_of (facts_of map.now) [] (visits_of (facts_of map.now) view.now.history))) }
    ensures broken { IfErr result (IsBrokenBy (facts_of map.now) (visits_of (facts_of map.now) view.now.history)) }
{
    let mut rebuild = Rebuild::new(alloc);
    let mut events = Gathered::new(alloc);
    for at in 0..view.history() {
        let event = rebuild.feed(map, view.entry(at))?;
        add(&mut events, event)?;
    }
    Ok(events)
}

/// What a trace that fits an object says, or where its history breaks.
pub fn said(
    alloc: Global,
    map: &DecisionMap<'_>,
    view: &TraceView<'_>,
) -> Result<SortedSet<Event>, Failure<BrokenHistory>>
    requires sound { IsSound map.now }
    requires kept { Everywhere (λ (h : HistoryEntry). needs_history map.now h.address ≡ true) view.now.history }
    ensures follow { OnOk result (AllFollow (facts_of map.now) [] (visits_of (facts_of map.now) view.now.history)) }
    ensures said { IfOk result (λ events. (e : Event) → Somewhere (λ x. x ≡ e) events
        ↔ Says (facts_of map.now) (trace_in view.now) e) }
    ensures broken { IfErr result (IsBrokenBy (facts_of map.now) (visits_of (facts_of map.now) view.now.history)) }
{
    let mut events = replay(alloc, map, view)?;
    let flagged = from_edges(alloc, map, view)?;
    let starts = starts_in(alloc, map.object(), view)?;
    events.add_all(flagged.as_slice())?;
    events.add_all(starts.as_slice())?;
    Ok(events.into_set())
}
