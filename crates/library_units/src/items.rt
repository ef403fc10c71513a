//! What stands in the bodies of packages (Ada RM 2012, 7.2).

ghost use Rattle.cov_base.specs.declared.position.Pos.{Pos};
ghost use Rattle.ada_rules.specs.Units as rules;
ghost use Rattle.unit_interfaces.specs.specifications.specs.Routines.{ComesToRegion};
ghost use Rattle.unit_interfaces.specs.specifications.specs.Going.{IsSound, AdvancesOn};
ghost use Rattle.unit_interfaces.specs.Items.{ComesToItem};

use crate::packaged::packaged_body;
use ada_entities::Refusal;
use ada_syntax::BodyItem;
use cov_base::Failure;
use program_walk::{Context, Walk};
use std::alloc::Global;
use unit_interfaces::package_item;

/// A declaration or a body in the body of a package (RM 7.2).
#[tactic(auto, using(program_walk::proofs::GoingLaws::parts))]
fn body_item(
    alloc: Global,
    context: &Context<'_>,
    walk: &mut Walk,
    item: &BodyItem,
) -> Result<(), Failure<Refusal>>
    ensures comes { ComesToItem context.now walk.old walk.new (λ env s. rules.body_item env s item.now) result }
    ensures goes { IsSound walk.old → AdvancesOn walk.old walk.new result }
{
    match item {
        BodyItem::Declared(item) => package_item(alloc, context, walk, item),
        BodyItem::Body(body) => packaged_body(alloc, context, walk, body),
    }
}

/// The declarations and bodies of a package's body, in order (RM 7.2). Refused at the rules' own place.
#[tactic(auto, using(program_walk::proofs::GoingLaws::parts))]
pub fn body_items(
    alloc: Global,
    context: &Context<'_>,
    walk: &mut Walk,
    items: &[BodyItem],
) -> Result<(), Failure<Refusal>>
    ensures comes { (p : Pos) → ComesToRegion context.now walk.old walk.new
        (λ k env s. (rules.body_items env s p items.now).answer) result }
    ensures goes { IsSound walk.old → AdvancesOn walk.old walk.new result }
{
    for item in items {
        body_item(alloc, context, walk, item)?;
    }
    Ok(())
}
