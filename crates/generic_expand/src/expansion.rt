//! From the program to its copies.

ghost use Rattle.std.specs.Prelude.{◌≡◌, ◌≤◌, ◌<◌, ◌+◌, ◌++◌, None, IfOk, IfErr, OnOk, IfSome, IfNone};
ghost use Rattle.cov_base.specs.declared.failure.Failure.TheVariants.{WantOfMemory};
ghost use Rattle.ada_tree.specs.Programs.{program_of};
ghost use Rattle.generic_expand.specs.Copying as copying;
ghost use Rattle.generic_expand.specs.Expanded as spec;
ghost use Rattle.generic_expand.specs.Expanded.{node_limit, Refuses};

use crate::copies::{BodyCopy, Copies};
use crate::fault::ExpandFault;
use ada_tree::{Instance, Program, Subprogram, UnitEntry, UnitRole};
use cov_base::{Failure, InstId, Pos, Seq, number_behind, numbered};
use std::alloc::{AllocError, Global};

/// How many instances a program may have.
const INSTANCE_LIMIT: u32 = 64;

/// How many nodes an expanded program may have.
const NODE_LIMIT: u32 = 4096;

/// How many instances a unit is.
fn instances_in(role: UnitRole) -> u32
    ensures { result ≡ spec.instances_in role }
{
    match role {
        UnitRole::Once | UnitRole::OfGeneric(_) => 0,
        UnitRole::InstanceOf(_) => 1,
    }
}

/// The place of the unit with which the instances first pass the limit.
fn past_instances(units: &[UnitEntry]) -> Option<Pos>
    ensures { result ≡ spec.past_instances 0 units.now }
{
    let mut count = 0;
    for unit in units {
        count += instances_in(unit.role);
        if INSTANCE_LIMIT < count {
            return Some(unit.pos);
        }
    }
    None
}

/// So many nodes and so many more together; none where they pass the limit.
fn within_limit(nodes: u32, more: u32) -> Option<u32>
    ensures sum { IfSome result (λ total. (total ≡ nodes + more) × (total ≤ node_limit)) }
    ensures past { IfNone result (node_limit < nodes + more) }
{
    match nodes.checked_add(more) {
        Some(total) if total <= NODE_LIMIT => Some(total),
        _ => None,
    }
}

/// The nodes of a unit, where it is part of this generic.
fn nodes_in(generic: u32, role: UnitRole, nodes: u32) -> u32
    ensures { result ≡ spec.nodes_in generic role nodes }
{
    match role {
        UnitRole::OfGeneric(other) if other == generic => nodes,
        _ => 0,
    }
}

/// The nodes of a generic; none where they pass the limit.
fn generic_nodes(generic: u32, units: &[UnitEntry]) -> Option<u32>
    ensures sum { IfSome result (λ nodes. nodes ≡ spec.generic_nodes generic units.now) }
    ensures past { IfNone result (node_limit < spec.generic_nodes generic units.now) }
{
    let mut nodes = 0;
    for unit in units {
        match within_limit(nodes, nodes_in(generic, unit.role, unit.nodes)) {
            Some(total) => nodes = total,
            None => return None,
        }
    }
    Some(nodes)
}

/// What a unit adds to the expanded program; none where this alone passes the limit.
fn expanded_nodes(all: &[UnitEntry], role: UnitRole, nodes: u32) -> Option<u32>
    ensures sum { IfSome result (λ total. total ≡ spec.expanded_nodes all.now role nodes) }
    ensures past { IfNone result (node_limit < spec.expanded_nodes all.now role nodes) }
{
    match role {
        UnitRole::Once => Some(nodes),
        UnitRole::OfGeneric(_) => Some(0),
        UnitRole::InstanceOf(generic) => match generic_nodes(generic, all) {
            Some(more) => within_limit(nodes, more),
            None => None,
        },
    }
}

/// So many nodes, and those of a unit; none where they pass the limit.
fn with_unit(all: &[UnitEntry], nodes: u32, unit: UnitEntry) -> Option<u32>
    ensures sum { IfSome result (λ total. (total ≡ nodes + spec.expanded_nodes all.now unit.role unit.nodes) × (total ≤ node_limit)) }
    ensures past { IfNone result (node_limit < nodes + spec.expanded_nodes all.now unit.role unit.nodes) }
{
    match expanded_nodes(all, unit.role, unit.nodes) {
        Some(more) => within_limit(nodes, more),
        None => None,
    }
}

/// The place of the unit with which the nodes of all units first pass the limit.
fn first_past(units: &[UnitEntry]) -> Option<Pos>
    ensures { result ≡ spec.first_past 0 units.now }
{
    let mut nodes = 0;
    for unit in units {
        match with_unit(units, nodes, *unit) {
            Some(total) => nodes = total,
            None => return Some(unit.pos),
        }
    }
    None
}

/// Adds the copy of a subprogram for the instance at this index, where it is one of the generic.
fn push_copy(
    copies: &mut Vec<BodyCopy>,
    subprogram: u32,
    generic: u32,
    index: usize,
    instance: &Instance,
) -> Result<(), AllocError>
    ensures { OnOk result (copies.new.items ≡ copies.old.items ++ copying.in_instance subprogram generic index instance.now) }
{
    if instance.generic != generic {
        return Ok(());
    }
    let number = number_behind(numbered(index)?)?;
    copies.push(BodyCopy {
        instance: InstId(number),
        subprogram,
    })?;
    Ok(())
}

/// Adds the copies of a subprogram of a generic: one for each instance.
fn push_copies(
    copies: &mut Vec<BodyCopy>,
    subprogram: u32,
    generic: u32,
    instances: &[Instance],
) -> Result<(), AllocError>
    ensures { OnOk result (copies.new.items ≡ copies.old.items ++ copying.in_instances subprogram generic 0 instances.now) }
{
    for (index, instance) in instances.iter().enumerate() {
        push_copy(copies, subprogram, generic, index, instance)?;
    }
    Ok(())
}

/// Adds the copies of a subprogram, by the generic that it stands in.
fn push_bodies(
    copies: &mut Vec<BodyCopy>,
    index: usize,
    subprogram: &Subprogram,
    instances: &[Instance],
) -> Result<(), AllocError>
    ensures { OnOk result (copies.new.items ≡ copies.old.items ++ copying.of_subprogram index subprogram.now.generic instances.now) }
{
    let number = numbered(index)?;
    match subprogram.generic {
        None => {
            copies.push(BodyCopy {
                instance: InstId(0),
                subprogram: number,
            })?;
            Ok(())
        }
        Some(generic) => push_copies(copies, number, generic, instances),
    }
}

/// The copies of all subprograms.
fn copies_of(
    alloc: Global,
    subprograms: &[Subprogram],
    instances: &[Instance],
) -> Result<Vec<BodyCopy>, AllocError>
    ensures { IfOk result (λ copies. copies.items ≡ copying.of_subprograms 0 subprograms.now instances.now) }
{
    let mut copies = Vec::new(alloc);
    for (index, subprogram) in subprograms.iter().enumerate() {
        push_bodies(&mut copies, index, subprogram, instances)?;
    }
    Ok(copies)
}

/// The copies of a program. It is refused exactly where it has too many instances, at the first token of
/// the unit with which it first has; or else more nodes than an expanded program may have, likewise;
/// else memory alone can be wanting.
#[tactic(auto, using(crate::proofs::Copying::memory))]
pub fn expand(alloc: Global, program: &Program) -> Result<Copies, Failure<ExpandFault>>
    ensures copies { IfOk result (λ c. c.bodies ≡ spec.copies_of (program_of program.now)) }
    ensures few { IfOk result (λ c. spec.past_instances 0 program.now.units ≡ None) }
    ensures small { IfOk result (λ c. spec.first_past 0 program.now.units ≡ None) }
    ensures refused { IfErr result (Refuses program.now.units) }
{
    let units = program.units.as_slice();
    if let Some(pos) = past_instances(units) {
        return Err(Failure::Fault(ExpandFault::TooMany { pos }));
    }
    if let Some(pos) = first_past(units) {
        return Err(Failure::Fault(ExpandFault::TooBig { pos }));
    }
    let bodies = copies_of(
        alloc,
        program.subprograms.as_slice(),
        program.instances.as_slice(),
    )?;
    Ok(Copies {
        bodies: Seq::from(bodies),
    })
}
