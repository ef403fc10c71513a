//! The instances of a program before any unit was looked at (Ada RM 2012, 12.3).

ghost use Rattle.std.specs.Prelude.{◌≡◌, length, IfOk, OnOk};
ghost use Rattle.ada_rules.specs.Units.{facts_before};
ghost use Rattle.unit_walk.specs.Instances.{Precedes};

use ada_demands::{Facts, Instances};
use ada_syntax::{LibraryItem, Unit};
use cov_base::{Seq, numbered};
use std::alloc::{AllocError, Global};

/// Adds the place of an instance, where a unit is one. Its generic is the number behind those of all
/// units, which is none.
fn add_place(
    alloc: Global,
    instances: &mut Instances,
    count: u32,
    unit: &Unit,
) -> Result<(), AllocError>
    ensures { OnOk result (Precedes count instances.old unit.now instances.new) }
{
    match &unit.item {
        LibraryItem::Instance(_) => instances.add(Facts {
            generic: count,
            formals: Seq::from(Vec::new(alloc)),
            constants: Seq::from(Vec::new(alloc)),
        }),
        LibraryItem::Package(_) | LibraryItem::PackageBody(_) | LibraryItem::Subprogram(_) => Ok(
            (),
        ),
    }
}

/// The instances before any unit was looked at, in the order of the text: none of them has a generic.
/// More than 2^32 - 1 units have no memory.
pub fn instances_before(alloc: Global, units: &[Unit]) -> Result<Instances, AllocError>
    ensures { IfOk result (λ i. i ≡ facts_before (length units.now) units.now) }
{
    let count = numbered(units.len())?;
    let mut instances = Instances::new(alloc);
    for unit in units {
        add_place(alloc, &mut instances, count, unit)?;
    }
    Ok(instances)
}
