//! What an entry of a history, or an edge of a branch, is on the graph of its decision.

ghost use Rattle.std.specs.Prelude.{◌≡◌, ◌<◌, length, true, not, Some, if◌then◌else◌};
ghost use Rattle.decision_map.specs.Decisions.{graph_at};
ghost use Rattle.decision_map.specs.Roles.{needs_history};
ghost use Rattle.object_facts.specs.Object.{facts_of};
ghost use Rattle.object_format.specs.Checked.{IsSound};
ghost use Rattle.transcript.specs.Trace.{visit_in};
ghost use Rattle.vector_rebuild.specs.Entries.{branched_of};
ghost use Rattle.vector_rebuild.specs.Rebuilt.{visit_as};

use cov_base::{CondIx, DecId, Event, InstId, Vector};
use decision_map::{Condition, DecisionMap, RoleHints};
use trace_format::HistoryEntry;

/// What tells one evaluation from others that are under way, by the numbers of the decision and the
/// instance, and the frame pointer of the activation.
#[derive(Clone, Copy, PartialEq, Eq, Hash)]
pub struct Key {
    pub decision: u32,
    pub instance: u32,
    pub x8: u32,
}

/// A condition that was evaluated, and its value.
#[derive(Clone, Copy, PartialEq, Eq)]
pub struct Step {
    pub node: CondIx,
    pub value: bool,
}

/// A step of an evaluation.
#[derive(Clone, Copy, PartialEq, Eq)]
pub struct Visit {
    pub decision: DecId,
    pub instance: InstId,
    pub x8: u32,
    pub step: Step,
}

impl Visit {
    ghost use Rattle.vector_rebuild.specs.Rebuilt.{key_in, event_by};

    /// The key of the evaluation.
    pub fn key(&self) -> Key
        ensures { result ≡ key_in (visit_as self.now).key }
    {
        Key {
            decision: self.decision.0,
            instance: self.instance.0,
            x8: self.x8,
        }
    }

    /// The event of the evaluation that the step completes with this vector, if it completes one.
    pub fn event(&self, completed: Option<Vector>) -> Option<Event>
        ensures { result ≡ event_by (visit_as self.now) completed }
    {
        completed.map(|vector| Event::Done(self.decision, self.instance, vector))
    }
}

/// The value that a condition has where its branch takes an edge.
pub fn value_by(condition: Condition, taken: bool) -> bool
    ensures { result ≡ (if taken then condition.when_taken else not condition.when_taken) }
{
    if taken {
        condition.when_taken
    } else {
        !condition.when_taken
    }
}

/// The step that an entry of a history is, with the places at hand where roles were found before.
#[inline(always)]
pub fn visit_of(map: &DecisionMap<'_>, hints: &mut RoleHints, entry: HistoryEntry) -> Visit
    requires sound { IsSound map.now }
    requires needed { needs_history map.now entry.address ≡ true }
    ensures visit { visit_in (facts_of map.now) (branched_of entry) ≡ Some (visit_as result) }
    ensures decision { result.decision.0 < length map.now.obligations.decisions }
    ensures node { result.step.node.0 < length (graph_at map.now result.decision.0) }
    ensures few { result.step.node.0 < 32 }
{
    let Some(condition) = map.condition_by(hints, entry.address) else {
        unreachable!()
    };
    let value = value_by(condition, entry.edge == 1);
    Visit {
        decision: condition.decision,
        instance: condition.instance,
        x8: entry.x8,
        step: Step {
            node: condition.condition,
            value,
        },
    }
}
