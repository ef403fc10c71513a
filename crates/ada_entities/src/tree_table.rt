//! The table of the typed program's composite types.

ghost use Rattle.std.specs.Prelude.{◌≡◌, IfOk};
ghost use Rattle.ada_tree.specs.Programs.{types_of};
ghost use Rattle.ada_entities.specs.TypeTable.{tables};
ghost use Rattle.ada_entities.specs.Trees.{shapes_in_tree, generic_at, AreIn};

use crate::composite::Types;
use crate::tree_subtype::definition_in_tree;
use ada_tree::TypeDeclaration;
use cov_base::Seq;
use std::alloc::{AllocError, Global};

/// The generic at a place; none where there are fewer places.
fn generic_at(generics: &[Option<u32>], place: usize) -> Option<u32>
    ensures { result ≡ generic_at generics.now place }
{
    match generics.get(place) {
        Some(generic) => *generic,
        None => None,
    }
}

/// The declarations of all composite types of the table, in order. Of each this is the generic whose text
/// it stands in; those behind the generics that are given stand in none.
pub fn type_declarations(
    alloc: Global,
    types: &Types,
    generics: &[Option<u32>],
) -> Result<Seq<TypeDeclaration>, AllocError>
    ensures types { IfOk result (λ ds. types_of ds ≡ shapes_in_tree (tables types.now)) }
    ensures generics { IfOk result (λ ds. AreIn generics.now 0 ds) }
{
    let mut declarations = Vec::new(alloc);
    for (place, definition) in types.definitions().iter().enumerate() {
        declarations.push(TypeDeclaration {
            generic: generic_at(generics, place),
            definition: definition_in_tree(alloc, definition)?,
        })?;
    }
    Ok(Seq::from(declarations))
}
