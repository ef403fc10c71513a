//! Consolidated files of an object: what runs covered, read back.

ghost use Rattle.std.specs.Prelude.{◌≡◌, ◌↔◌, ℕ, List, IfOk, IfErr, OnOk, IsTrue};
ghost use Rattle.cov_base.specs.declared.event.Event.{Event};
ghost use Rattle.cov_base.specs.Lists.{Somewhere};
ghost use Rattle.coverage_set.specs.Consolidated.{starts_of, decided_in, events_in};
ghost use Rattle.coverage_set.specs.Consolidated.{HasRow, IsPossible, IsFirstBeyond, FitsObject, IsRefusedFor};

use crate::set::SortedSet;
use cov_base::{DecId, Digest, Event, Failure, InstId};
use decision_map::DecisionMap;
use line_table::RoleKind;
use object_format::Object;
use std::alloc::{AllocError, Global};
use trace_format::{ConsFault, ConsolidatedView, VectorEntry};

/// A decision in an instance.
#[derive(Clone, Copy, PartialEq, Eq, PartialOrd, Ord)]
pub struct Decided {
    pub decision: DecId,
    pub instance: InstId,
}

/// The starts that the rows of an object give.
fn starts_of(alloc: Global, object: &Object) -> Result<SortedSet<Event>, AllocError>
    ensures { IfOk result (λ set. (e : Event)
        → Somewhere (λ x. x ≡ e) set ↔ Somewhere (λ x. x ≡ e) (starts_of object.now)) }
{
    let mut starts = Vec::new(alloc);
    for row in object.rows.as_slice() {
        starts.push(Event::Start(row.statement, row.instance))?;
    }
    Ok(SortedSet::of(starts))
}

/// The place of the first start that no row of the object gives, if there is one.
fn first_without_row(
    alloc: Global,
    object: &Object,
    view: &ConsolidatedView<'_>,
) -> Result<Option<u64>, AllocError>
    ensures { IfOk result (IsFirstBeyond (HasRow object.now) view.now.starts) }
{
    let starts = starts_of(alloc, object)?;
    for at in 0..view.starts() {
        let start = view.start(at);
        if !starts.has(&Event::Start(start.statement, start.instance)) {
            return Ok(Some(at));
        }
    }
    Ok(None)
}

/// The decisions whose conditions branches of an object decide, with their instances.
fn decided_in(alloc: Global, object: &Object) -> Result<SortedSet<Decided>, AllocError>
    ensures { IfOk result (λ set. (d : Decided)
        → Somewhere (λ x. x ≡ d) set ↔ Somewhere (λ x. x ≡ d) (decided_in object.now)) }
{
    let mut decided = Vec::new(alloc);
    for role in object.roles.as_slice() {
        if role.kind == RoleKind::CONDITION {
            let (decision, instance) = (role.decision, role.instance);
            decided.push(Decided { decision, instance })?;
        }
    }
    Ok(SortedSet::of(decided))
}

/// Whether runs of an object can give an evaluation, by what its branches decide.
fn is_possible(map: &DecisionMap<'_>, decided: &SortedSet<Decided>, entry: &VectorEntry) -> bool
    requires { (d : Decided) → Somewhere (λ x. x ≡ d) decided.now ↔ Somewhere (λ x. x ≡ d) (decided_in map.now) }
    ensures { IsTrue result ↔ IsPossible map.now entry.now }
{
    let (decision, instance) = (entry.decision, entry.instance);
    if decision.0 as usize >= map.object().obligations.decisions.len() {
        return false;
    }
    if !decided.has(&Decided { decision, instance }) {
        return false;
    }
    map.graph(decision).is_path(entry.vector)
}

/// The place of the first evaluation that runs of the object can't give, if there is one.
fn first_impossible(
    alloc: Global,
    map: &DecisionMap<'_>,
    view: &ConsolidatedView<'_>,
) -> Result<Option<u64>, AllocError>
    ensures { IfOk result (IsFirstBeyond (IsPossible map.now) view.now.vectors) }
{
    let decided = decided_in(alloc, map.object())?;
    for at in 0..view.vectors() {
        if !is_possible(map, &decided, &view.vector(at)) {
            return Ok(Some(at));
        }
    }
    Ok(None)
}

/// The checks of a consolidated file beside its object, in their order.
pub fn fit(
    alloc: Global,
    map: &DecisionMap<'_>,
    view: &ConsolidatedView<'_>,
) -> Result<(), Failure<ConsFault>>
    ensures fits { OnOk result (FitsObject map.now view.now) }
    ensures refused { IfErr result (IsRefusedFor map.now view.now) }
{
    let object = map.object();
    if view.object() != object.closing {
        return Err(Failure::Fault(ConsFault::Foreign {
            kept: view.object(),
            object: object.closing,
        }));
    }
    if let Some(at) = first_without_row(alloc, object, view)? {
        return Err(Failure::Fault(ConsFault::Start { at }));
    }
    if let Some(at) = first_impossible(alloc, map, view)? {
        return Err(Failure::Fault(ConsFault::Vector { at }));
    }
    Ok(())
}

/// The digests of the runs that a consolidated file lists.
pub fn runs_in(alloc: Global, view: &ConsolidatedView<'_>) -> Result<SortedSet<Digest>, AllocError>
    ensures { IfOk result (λ set. (d : List ℕ) → Somewhere (λ x. x ≡ d) set ↔ Somewhere (λ x. x ≡ d) view.now.runs) }
{
    let mut runs = Vec::new(alloc);
    for at in 0..view.runs() {
        runs.push(view.run(at))?;
    }
    Ok(SortedSet::of(runs))
}

/// The events that a consolidated file lists.
pub fn events_in(alloc: Global, view: &ConsolidatedView<'_>) -> Result<SortedSet<Event>, AllocError>
    ensures { IfOk result (λ set. (e : Event)
        → Somewhere (λ x. x ≡ e) set ↔ Somewhere (λ x. x ≡ e) (events_in view.now)) }
{
    let mut events = Vec::new(alloc);
    for at in 0..view.starts() {
        let start = view.start(at);
        events.push(Event::Start(start.statement, start.instance))?;
    }
    for at in 0..view.vectors() {
        let done = view.vector(at);
        events.push(Event::Done(done.decision, done.instance, done.vector))?;
    }
    Ok(SortedSet::of(events))
}
