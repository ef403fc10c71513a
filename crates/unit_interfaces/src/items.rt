//! What stands in packages (Ada RM 2012, 7.1).

ghost use Rattle.cov_base.specs.declared.position.Pos.{Pos};
ghost use Rattle.ada_syntax.specs.declared.unit.PackageItem.TheVariants as part;
ghost use Rattle.ada_rules.specs.Units as rules;
ghost use Rattle.program_walk.specs.Going.{GoesOn, IsWalkOpen};
ghost use Rattle.unit_walk.specs.specifications.specs.Routines.{ComesToRegion};
ghost use Rattle.unit_interfaces.specs.Items.{ComesToItem};

use ada_entities::Refusal;
use ada_syntax::{Declaration, PackageItem};
use cov_base::Failure;
use declarations::declared;
use program_walk::{Context, Walk};
use std::alloc::Global;
use unit_walk::subprogram_declared;

/// A declaration in a package, which makes no declaration of a subprogram's body.
#[tactic(auto, using(program_walk::proofs::GoingLaws::parts))]
fn declared_item(
    alloc: Global,
    context: &Context<'_>,
    walk: &mut Walk,
    declaration: &Declaration,
) -> Result<(), Failure<Refusal>>
    ensures comes { ComesToItem context.now walk.old walk.new
        (λ env s. rules.package_item env s (part.Declaration declaration.now)) result }
    ensures goes { IsWalkOpen walk.old → GoesOn walk.old walk.new result }
{
    let mut made = Vec::new(alloc);
    declared(alloc, context, walk, &mut made, declaration)
}

/// A declaration in a package, also of a subprogram (RM 7.1).
#[tactic(auto, using(program_walk::proofs::GoingLaws::parts))]
pub fn package_item(
    alloc: Global,
    context: &Context<'_>,
    walk: &mut Walk,
    item: &PackageItem,
) -> Result<(), Failure<Refusal>>
    ensures comes { ComesToItem context.now walk.old walk.new (λ env s. rules.package_item env s item.now) result }
    ensures goes { IsWalkOpen walk.old → GoesOn walk.old walk.new result }
{
    match item {
        PackageItem::Declaration(declaration) => declared_item(alloc, context, walk, declaration),
        PackageItem::Subprogram(specification) => {
            subprogram_declared(alloc, context, walk, specification)
        }
    }
}

/// The declarations of a package, in order (RM 7.1). Refused at the rules' own place.
#[tactic(auto, using(program_walk::proofs::GoingLaws::parts))]
pub fn package_items(
    alloc: Global,
    context: &Context<'_>,
    walk: &mut Walk,
    items: &[PackageItem],
) -> Result<(), Failure<Refusal>>
    ensures comes { (p : Pos) → ComesToRegion context.now walk.old walk.new
        (λ k env s. (rules.package_items env s p items.now).answer) result }
    ensures goes { IsWalkOpen walk.old → GoesOn walk.old walk.new result }
{
    for item in items {
        package_item(alloc, context, walk, item)?;
    }
    Ok(())
}
