//! Subtypes, as the typed program names them.

ghost use Rattle.std.specs.Prelude.{◌≡◌, map, IfOk};
ghost use Rattle.ada_entities.specs.declared.composite.Component.{Component};
ghost use Rattle.ada_entities.specs.Trees.{named_in_tree, IsInTree, IsDefinedInTree};

use crate::composite::{Component, Definition};
use crate::types::{AdaType, Subtype};
use ada_tree::{CompositeType, Subtype as TreeSubtype};
use cov_base::Seq;
use std::alloc::{AllocError, Global};

/// A subtype: of a scalar one its range, of a composite one its number in the table of types.
pub fn subtype_in_tree(subtype: Subtype) -> TreeSubtype
    ensures named { result ≡ named_in_tree subtype }
    ensures is { IsInTree subtype result }
{
    match subtype.of {
        AdaType::Scalar(_) => TreeSubtype::Scalar(subtype.range),
        AdaType::Composite(composite) => {
            TreeSubtype::Composite(composite.seen, composite.number)
        }
    }
}

/// The subtypes of the components of a record, in order.
fn components_in_tree(
    alloc: Global,
    components: &[Component],
) -> Result<Seq<TreeSubtype>, AllocError>
    ensures { IfOk result (λ ts. ts ≡ map (λ (c : Component). named_in_tree c.subtype) components.now) }
{
    let mut subtypes = Vec::new(alloc);
    for component in components {
        subtypes.push(subtype_in_tree(component.subtype))?;
    }
    Ok(Seq::from(subtypes))
}

/// The definition of a composite type.
pub(crate) fn definition_in_tree(
    alloc: Global,
    definition: &Definition,
) -> Result<CompositeType, AllocError>
    ensures { IfOk result (λ c. IsDefinedInTree definition.now c) }
{
    match definition {
        Definition::Array(index, component) => Ok(CompositeType::Array(
            index.range,
            subtype_in_tree(*component),
        )),
        Definition::Record(components) => {
            let components = components_in_tree(alloc, components.as_slice())?;
            Ok(CompositeType::Record(components))
        }
    }
}
