//! Objects of the library level (Ada RM 2012, 3.3.1, 7.1).

ghost use Rattle.std.specs.Prelude.{◌≡◌, OnOk};
ghost use Rattle.program_walk.specs.Going.{GoesInside, IsWalkOpen};
ghost use Rattle.declarations.specs.Library.{AddsObject, AddsObjects};

use crate::objects::ObjectForm;
use crate::owners::owner;
use ada_syntax::Identifier;
use ada_tree::{Initial, LibraryObject, Object};
use program_walk::{Context, Walk};
use std::alloc::{AllocError, Global};

/// Declares an object under a name of the innermost region, with the next number.
fn add_object(
    alloc: Global,
    context: &Context<'_>,
    walk: &mut Walk,
    form: ObjectForm,
    initial: Initial,
    name: &Identifier,
) -> Result<(), AllocError>
    ensures added { OnOk result (AddsObject context.now walk.old walk.new form initial name.now) }
    ensures inside { OnOk result (GoesInside walk.old walk.new) }
{
    let number = walk.counts.library_object()?;
    let entity = form.entity(Object::Library(owner(context.generic), number));
    walk.symbols.redefine(alloc, name, entity)?;
    let object = LibraryObject {
        declaration: number,
        generic: context.generic,
        subtype: form.tree,
        initial,
    };
    walk.found.add_object(object)?;
    walk.found.add_library_word(form.tree)?;
    Ok(())
}

/// Declares objects under names of the innermost region, with the next numbers.
pub(crate) fn add_objects(
    alloc: Global,
    context: &Context<'_>,
    walk: &mut Walk,
    form: ObjectForm,
    initial: Initial,
    names: &[Identifier],
) -> Result<(), AllocError>
    ensures added { OnOk result (AddsObjects context.now walk.old walk.new form initial names.now) }
    ensures inside { OnOk result (IsWalkOpen walk.old → GoesInside walk.old walk.new) }
{
    for name in names {
        add_object(alloc, context, walk, form, initial, name)?;
    }
    Ok(())
}
