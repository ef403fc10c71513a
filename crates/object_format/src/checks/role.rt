//! The check `role`: the roles fit the text's conditional branches and the decisions.

ghost use Rattle.std.specs.Prelude.{◌≡◌, ◌↔◌, ◌≤◌, ◌+◌, IsTrue, IfOk, true, map, length, nat_lt, slice_get, bytes_eq, if◌then◌else◌};
ghost use Rattle.std.specs.List.{list_all};
ghost use Rattle.std.specs.BTreeSet.{IsFromIterResult, contains};
ghost use Rattle.rv_isa.specs.Decoding.{instr_of};
ghost use Rattle.object_format.specs.Fields.{condition_count, passes_field};
ghost use Rattle.object_format.specs.Keys.{triple_cmp};
ghost use Rattle.rv_isa.specs.Control.{is_branch, holds};
ghost use Rattle.object_format.specs.RoleCheck.{branches_from, condition_of, conditions_of, is_known, AreSingle, AreWhole, PassesRole};

use crate::checks::field::condition_count;
use crate::object::{Object, TEXT_START};
use cov_base::{DecEntry, DecId};
use line_table::{Role, RoleKind};
use rv_isa::{Instr, decode};
use std::alloc::{AllocError, Global};
use std::collections::BTreeSet;

/// A condition of a decision in an instance.
type Condition = ((u32, u32), usize);

/// Whether the roles are those of the text's conditional branches, in order, and each decision has
/// in each instance a role for no condition or for each one.
pub(crate) fn passes_role(alloc: Global, value: &Object) -> Result<bool, AllocError>
    requires { passes_field value.now ≡ true }
    ensures { IfOk result (λ passes. IsTrue passes ↔ PassesRole value.now) }
{
    let roles = value.roles.as_slice();
    if !are_branches(roles, value.text.as_slice()) {
        return Ok(false);
    }
    let conditions = conditions_of(alloc, roles)?;
    are_complete(
        alloc,
        conditions.as_slice(),
        value.obligations.decisions.as_slice(),
    )
}

/// Whether a word holds a conditional branch.
fn is_branch(word: u32) -> bool
    ensures { result ≡ holds is_branch (instr_of word) }
{
    matches!(decode(word), Some(Instr::Branch { .. }))
}

/// Whether the roles are those of the conditional branches of the text, in order.
fn are_branches(roles: &[Role], text: &[u32]) -> bool
    requires { length text.now ≤ 4194304 }
    ensures { result ≡ bytes_eq (map (λ role. role.address) roles.now) (branches_from 0x10000 text.now) }
{
    let mut rest = roles;
    let mut address = TEXT_START;
    for word in text {
        if is_branch(*word) {
            let Some((role, others)) = rest.split_first() else {
                return false;
            };
            if role.address != address {
                return false;
            }
            rest = others;
        }
        address += 4;
    }
    rest.is_empty()
}

/// The condition that a role is for.
fn condition_of(role: &Role) -> Condition
    ensures { result ≡ condition_of role.now }
{
    (
        (role.decision.0, role.instance.0),
        usize::from(role.condition.0),
    )
}

/// The conditions that have roles.
fn conditions_of(alloc: Global, roles: &[Role]) -> Result<Vec<Condition>, AllocError>
    ensures { IfOk result (λ found. found.items ≡ conditions_of roles.now) }
{
    let mut found = Vec::new(alloc);
    for role in roles {
        if role.kind == RoleKind::CONDITION {
            found.push(condition_of(role))?;
        }
    }
    Ok(found)
}

/// Whether no condition is there twice, and with each all of its decision are, in its instance.
fn are_complete(
    alloc: Global,
    conditions: &[Condition],
    decisions: &[DecEntry],
) -> Result<bool, AllocError>
    requires { list_all (is_known decisions.now) conditions.now ≡ true }
    ensures { IfOk result (λ complete. IsTrue complete ↔ (AreSingle conditions.now × AreWhole decisions.now conditions.now)) }
{
    let present = set_of(alloc, conditions)?;
    Ok(are_made(conditions, &present, decisions))
}

/// The same, where `present` is the set of the conditions.
fn are_made(conditions: &[Condition], present: &BTreeSet<Condition>, decisions: &[DecEntry]) -> bool
    requires known { list_all (is_known decisions.now) conditions.now ≡ true }
    requires made { IsFromIterResult triple_cmp conditions.now present.now }
    ensures { IsTrue result ↔ (AreSingle conditions.now × AreWhole decisions.now conditions.now) }
{
    let are_single = present.len() == conditions.len();
    are_single & are_followed(conditions, present, decisions)
}

fn set_of(alloc: Global, conditions: &[Condition]) -> Result<BTreeSet<Condition>, AllocError>
    ensures { IfOk result (IsFromIterResult triple_cmp conditions.now) }
{
    conditions.iter().map(|one| *one).collect(alloc)
}

/// Whether behind each condition the next one of its decision is present, and the first behind the
/// last. If so, all are.
fn are_followed(
    conditions: &[Condition],
    present: &BTreeSet<Condition>,
    decisions: &[DecEntry],
) -> bool
    ensures { result ≡ list_all (λ one. contains triple_cmp present.now (one.0, if nat_lt (one.1 + 1) (condition_count (slice_get decisions.now one.0.0)) then one.1 + 1 else 0)) conditions.now }
{
    conditions
        .iter()
        .all(|one| is_followed(one, present, decisions))
}

fn is_followed(one: &Condition, present: &BTreeSet<Condition>, decisions: &[DecEntry]) -> bool
    ensures { result ≡ contains triple_cmp present.now (one.now.0, if nat_lt (one.now.1 + 1) (condition_count (slice_get decisions.now one.now.0.0)) then one.now.1 + 1 else 0) }
{
    present.contains(&following(one, decisions))
}

/// The next condition of the same decision in the same instance, and the first behind the last.
fn following(one: &Condition, decisions: &[DecEntry]) -> Condition
    ensures { result ≡ (one.now.0, if nat_lt (one.now.1 + 1) (condition_count (slice_get decisions.now one.now.0.0)) then one.now.1 + 1 else 0) }
{
    let (at, condition) = *one;
    let count = condition_count(decisions, DecId(at.0));
    if condition < count.saturating_sub(1) {
        (at, condition + 1)
    } else {
        (at, 0)
    }
}
