//! What the branch of a condition decides.

ghost use Rattle.std.specs.Prelude.{◌≡◌};
ghost use Rattle.decision_map.specs.Roles.{condition_of};

use cov_base::{CondIx, DecId, InstId};
use line_table::{Role, RoleKind};

/// A condition of a decision, as a conditional branch decides it: which value it has where the branch
/// is taken, and in which instance.
#[derive(Clone, Copy, PartialEq, Eq)]
pub struct Condition {
    pub decision: DecId,
    pub condition: CondIx,
    pub when_taken: bool,
    pub instance: InstId,
}

/// The condition that a role names. Checks and structure name none.
pub(crate) fn condition_of(role: Role) -> Option<Condition>
    ensures { result ≡ condition_of role }
{
    if role.kind != RoleKind::CONDITION {
        return None;
    }
    Some(Condition {
        decision: role.decision,
        condition: role.condition,
        when_taken: role.value == 1,
        instance: role.instance,
    })
}
