//! The instances of a program in their order, with the values of constants (Ada RM 2012, 3.3.1, 12.3).

ghost use Rattle.std.specs.Prelude.{◌≡◌, map, IfOk, OnOk};
ghost use Rattle.ada_meaning.specs.Obligations.{in_order};
ghost use Rattle.ada_tree.specs.Programs.{instance_of};
ghost use Rattle.ada_rules.specs.Legal.{with_values};
ghost use Rattle.ada_demands.specs.FactViews.{facts_of};
ghost use Rattle.typed_program.specs.Instances.{stands_before, with_values_at};

use ada_demands::{Facts, Instances};
use ada_tree::Instance;
use cov_base::Seq;
use std::alloc::{AllocError, Global};

/// Puts instances in the order of their places.
fn sort(instances: &mut Vec<Instance>) -> Result<(), AllocError>
    ensures { OnOk result (instances.new.items ≡ in_order stands_before instances.old.items) }
{
    instances.sort_by_key(|instance| instance.place)
}

/// Lets the instance at a place have the values of constants that these facts tell; a place without an
/// instance has no effect.
fn set_values(
    alloc: Global,
    instances: &mut Vec<Instance>,
    index: usize,
    facts: &Facts,
) -> Result<(), AllocError>
    ensures { OnOk result (map instance_of instances.new.items
        ≡ with_values_at index (facts_of facts.now) (map instance_of instances.old.items)) }
{
    let constants = Vec::from_slice(alloc, facts.constants.as_slice())?;
    if let Some(instance) = instances.get_mut(index) {
        instance.constants = Seq::from(constants);
    }
    Ok(())
}

/// Lets instances have the values of constants that their facts tell, as far as there are both.
fn set_all_values(
    alloc: Global,
    instances: &mut Vec<Instance>,
    facts: &[Facts],
) -> Result<(), AllocError>
    ensures { OnOk result (map instance_of instances.new.items
        ≡ with_values (map instance_of instances.old.items) (map facts_of facts.now)) }
{
    for (index, facts) in facts.iter().enumerate() {
        set_values(alloc, instances, index, facts)?;
    }
    Ok(())
}

/// The instances in the order of their places, with the values of constants.
pub(crate) fn completed(
    alloc: Global,
    instances: Vec<Instance>,
    facts: &Instances,
) -> Result<Seq<Instance>, AllocError>
    ensures { IfOk result (λ is. map instance_of is
        ≡ with_values (map instance_of (in_order stands_before instances.items)) facts.now) }
{
    let mut instances = instances;
    sort(&mut instances)?;
    set_all_values(alloc, &mut instances, facts.as_slice())?;
    Ok(Seq::from(instances))
}
