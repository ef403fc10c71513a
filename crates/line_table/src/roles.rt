//! The roles: what each conditional branch of the text decides.

ghost use Rattle.std.specs.Prelude.{◌≡◌, ◌≢◌, ◌==◌, List, find, All, Contains, IfSome, IfNone};
ghost use Rattle.line_table.specs.declared.roles.Role.{Role};

use cov_base::{CondIx, DecId, InstId};
use std::marker::Model;

/// What a conditional branch is there for.
#[derive(Clone, Copy, PartialEq, Eq, PartialOrd, Ord)]
pub struct RoleKind(pub u8);

impl RoleKind {
    /// A check of the language, as of a range or of a division.
    pub const CHECK: RoleKind = RoleKind(0);
    /// Control flow that is no condition of a decision.
    pub const STRUCTURE: RoleKind = RoleKind(1);
    /// A condition of a decision.
    pub const CONDITION: RoleKind = RoleKind(2);
}

/// The conditional branch at `address` has this kind. Where it is a condition, it is taken exactly
/// if that condition has `value`: 1 for True, 0 for False. The other kinds have zeros for decision,
/// condition, value and instance.
#[derive(Clone, Copy)]
pub struct Role {
    pub address: u32,
    pub kind: RoleKind,
    pub decision: DecId,
    pub condition: CondIx,
    pub value: u8,
    pub instance: InstId,
}

/// The roles of an object. Contracts see them as a list.
#[derive(Drop)]
pub struct Roles {
    roles: Vec<Role>,
}

impl Model for Roles {
    ghost Value = { List Role };

    ghost view = { λ r. r.roles.items };
}

impl Roles {
    /// The role of an address, the first one where there are several.
    pub fn at(&self, pc: u32) -> Option<Role>
        ensures first { result ≡ find (λ role. role.address == pc) self.now }
        ensures found { IfSome result (λ role. (role.address ≡ pc) × Contains self.now role) }
        ensures none { IfNone result (All (λ role. role.address ≢ pc) self.now) }
    {
        self.roles.iter().copied().find(|role| role.address == pc)
    }

    /// All roles, in their order.
    pub fn as_slice(&self) -> &[Role]
        ensures { result.now ≡ self.now }
    {
        self.roles.as_slice()
    }
}

impl From<Vec<Role>> for Roles {
    ghost from_gives = { λ v r. r ≡ v.items };

    /// The roles of a vector, without taking memory.
    fn from(roles: Vec<Role>) -> Self {
        Roles { roles }
    }
}

impl From<Roles> for Vec<Role> {
    ghost from_gives = { λ r v. v.items ≡ r };

    /// The vector that the roles stood in, without taking memory.
    fn from(roles: Roles) -> Self {
        roles.roles
    }
}
