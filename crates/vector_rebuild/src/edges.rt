//! The evaluations of decisions whose graph is a tree, by the flags of a trace's blocks.
//!
//! On a tree one path leads to each edge. So where a branch's edge leads to an outcome, the flag of
//! that edge alone tells which evaluation was completed.

ghost use Rattle.std.specs.Prelude.{◌≡◌, ◌↔◌, ◌⊎◌, List, [], true, Some, IfOk, OnOk};
ghost use Rattle.cov_base.specs.declared.event.Event.{Event};
ghost use Rattle.cov_base.specs.declared.event.Event.TheVariants.{Done};
ghost use Rattle.cov_base.specs.declared.event.Vector.{Vector};
ghost use Rattle.cov_base.specs.declared.position.DecId.{DecId};
ghost use Rattle.cov_base.specs.declared.position.InstId.{InstId};
ghost use Rattle.decision_map.specs.Roles.{condition_at};
ghost use Rattle.cov_base.specs.Lists.{Somewhere};
ghost use Rattle.object_facts.specs.Object.{facts_of, condition_of};
ghost use Rattle.object_format.specs.Checked.{IsSound};
ghost use Rattle.rv_semantics.specs.declared.stepped.Seen.{Seen};
ghost use Rattle.transcript.specs.Reading.{IsCompletedFrom, IsDisciplined};
ghost use Rattle.transcript.specs.Trace.{flag, trace_of};
ghost use Rattle.transcript.specs.Visit.{visits};
ghost use Rattle.vector_rebuild.specs.Entries.{block_of, trace_in};
ghost use Rattle.vector_rebuild.specs.Flagged.{EndsWith, EdgeSays, BlockSays, FlagsSay};

use crate::visit::value_by;
use cov_base::Event;
use decision_map::{Condition, DecisionMap};
use std::alloc::{AllocError, Global};
use trace_format::{Block, NOT_TAKEN, TAKEN, TraceView};

/// The evaluations that the flags of a trace's blocks show: those of tree decisions.
pub fn from_edges(
    alloc: Global,
    map: &DecisionMap<'_>,
    view: &TraceView<'_>,
) -> Result<Vec<Event>, AllocError>
    requires { IsSound map.now }
    ensures said { IfOk result (λ events. (e : Event)
        → Somewhere (λ x. x ≡ e) events.items ↔ FlagsSay (facts_of map.now) (trace_in view.now) e) }

    // Of a run, they are the evaluations of tree decisions that its instructions completed.
    ensures run { IfOk result (λ events. (ss : List Seen) → IsDisciplined (facts_of map.now) ss
        → trace_in view.now ≡ trace_of (facts_of map.now) ss
        → (d : DecId) (i : InstId) (vector : Vector) → (facts_of map.now).tree d ≡ true
        → Somewhere (λ x. x ≡ Done d i vector) events.items
        ↔ IsCompletedFrom (facts_of map.now) [] (visits (facts_of map.now) ss) d i vector) }
{
    let mut events = Vec::new(alloc);
    for at in 0..view.blocks() {
        let block = view.block(at);
        add_edge(&mut events, map, block, true)?;
        add_edge(&mut events, map, block, false)?;
    }
    Ok(events)
}

/// Adds the evaluation that ends with an edge of a block's branch, if the block has its flag.
fn add_edge(
    events: &mut Vec<Event>,
    map: &DecisionMap<'_>,
    block: Block,
    taken: bool,
) -> Result<(), AllocError>
    requires { IsSound map.now }
    ensures { OnOk result ((e : Event) → Somewhere (λ x. x ≡ e) events.new.items
        ↔ (Somewhere (λ x. x ≡ e) events.old.items ⊎ EdgeSays (facts_of map.now) (block_of block) taken e)) }
{
    if let Some(event) = edge_event(map, block, taken) {
        events.push(event)?;
    }
    Ok(())
}

/// The evaluation that ends with an edge of a block's branch, if the block has its flag. It takes no
/// memory.
pub fn edge_event(map: &DecisionMap<'_>, block: Block, taken: bool) -> Option<Event>
    requires { IsSound map.now }
    ensures { (e : Event) → (result ≡ Some e) ↔ EdgeSays (facts_of map.now) (block_of block) taken e }
{
    if !has_flag(block, taken) {
        return None;
    }
    ended_by(map, block.last, map.condition(block.last)?, taken)
}

/// Whether a block has the flag of an edge.
fn has_flag(block: Block, taken: bool) -> bool
    ensures { result ≡ flag taken (block_of block) }
{
    block.flags & (if taken { TAKEN } else { NOT_TAKEN }) != 0
}

/// The evaluation that ends where the branch of a condition takes an edge: there is one where the
/// decision's graph is a tree, and that edge leads to an outcome.
fn ended_by(map: &DecisionMap<'_>, pc: u32, condition: Condition, taken: bool) -> Option<Event>
    requires sound { IsSound map.now }
    requires role { condition_at map.now pc ≡ Some condition }
    ensures { (e : Event) → (result ≡ Some e) ↔ EndsWith (facts_of map.now) (condition_of condition) taken e }
{
    if !map.is_tree(condition.decision) {
        return None;
    }
    let value = value_by(condition, taken);
    let vector = map
        .graph(condition.decision)
        .path_of_leaf(condition.condition, value)?;
    Some(Event::Done(condition.decision, condition.instance, vector))
}
