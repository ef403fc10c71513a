//! Which branches need a history: those of conditions of decisions whose graphs are no trees.

ghost use Rattle.std.specs.Prelude.{◌≡◌, map, not, false, find, AllPairs, ◌==◌, ◌<◌};
ghost use Rattle.std.specs.Option.{option_map_or};
ghost use Rattle.line_table.specs.declared.roles.Role.{Role};
ghost use Rattle.decision_map.specs.declared.condition.Condition.{Condition};
ghost use Rattle.decision_map.specs.Decisions.{graph_of_entry, is_tree_at};
ghost use Rattle.decision_map.specs.Kinds.{kinds_of_text};
ghost use Rattle.decision_map.specs.Mapped.{AreKinds, marked};
ghost use Rattle.decision_map.specs.Roles.{IsMappable, condition_of};

use crate::condition::condition_of;
use crate::graphs::DecisionGraph;
use crate::kind::WordKind;
use crate::places::place_of;
use line_table::Role;
use object_format::Object;

/// The role of an address.
pub(crate) fn role_at(roles: &[Role], pc: u32) -> Option<Role>
    requires { AllPairs (λ (first next : Role). first.address < next.address) roles.now }
    ensures { result ≡ find (λ role. role.address == pc) roles.now }
{
    match roles.binary_search_by_key(&pc, |role| role.address) {
        Ok(at) => Some(roles[at]),
        Err(_) => None,
    }
}

/// Whether a role is that of a condition of a decision whose graph is no tree.
fn is_kept(object: &Object, graphs: &[DecisionGraph], role: Role) -> bool
    requires { graphs.now ≡ map graph_of_entry object.now.obligations.decisions }
    ensures { result ≡ option_map_or (λ (c : Condition). not (is_tree_at object.now c.decision.0))
        (condition_of role) false }
{
    let Some(condition) = condition_of(role) else {
        return false;
    };
    match graphs.get(condition.decision.0 as usize) {
        Some(decision) => !decision.is_tree,
        None => false,
    }
}

/// Marks the branch at an address as one that needs a history.
fn mark(kinds: &mut [WordKind], pc: u32)
    ensures { kinds.new ≡ marked kinds.old pc }
{
    if let Some(place) = place_of(pc)
        && place < kinds.len()
    {
        kinds[place] = WordKind::HistoryBranch;
    }
}

/// Makes the kinds of words by themselves those of an object's words.
pub(crate) fn keep_histories(object: &Object, graphs: &[DecisionGraph], kinds: &mut [WordKind])
    requires mappable { IsMappable object.now }
    requires graphs { graphs.now ≡ map graph_of_entry object.now.obligations.decisions }
    requires kinds { kinds.old ≡ kinds_of_text object.now.text }
    ensures { AreKinds object.now kinds.new }
{
    for role in object.roles.as_slice() {
        if is_kept(object, graphs, *role) {
            mark(kinds, role.address);
        }
    }
}
