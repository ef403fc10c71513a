//! Objects that are declared in a subprogram or a block (Ada RM 2012, 3.3.1).

ghost use Rattle.std.specs.Prelude.{OnOk};
ghost use Rattle.program_walk.specs.Going.{GoesInside, IsWalkOpen};
ghost use Rattle.declarations.specs.Locals.{AddsLocal, AddsLocals, MakesBare, MakesSet};
ghost use Rattle.program_walk.specs.Counting.{Starts};

use crate::objects::ObjectForm;
use ada_syntax::Identifier;
use ada_tree::{Declaration, NewValue, Object, Subtype as TreeSubtype};
use cov_base::{Pos, number_behind};
use program_walk::{Counts, Walk, Word};
use std::alloc::{AllocError, Global};

/// Declares an object under a name of the innermost region, with the next number.
fn add_local(
    alloc: Global,
    walk: &mut Walk,
    form: ObjectForm,
    name: &Identifier,
) -> Result<(), AllocError>
    ensures added { OnOk result (AddsLocal walk.old walk.new form name.now) }
    ensures inside { OnOk result (GoesInside walk.old walk.new) }
{
    let number = walk.counts.object()?;
    let entity = form.entity(Object::Local(number));
    walk.symbols.redefine(alloc, name, entity)?;
    let word = Word {
        pos: name.pos,
        subtype: form.tree,
    };
    walk.found.add_word(word)?;
    Ok(())
}

/// Declares objects under names of the innermost region, with the next numbers.
pub(crate) fn add_locals(
    alloc: Global,
    walk: &mut Walk,
    form: ObjectForm,
    names: &[Identifier],
) -> Result<(), AllocError>
    ensures added { OnOk result (AddsLocals walk.old walk.new form names.now) }
    ensures inside { OnOk result (IsWalkOpen walk.old → GoesInside walk.old walk.new) }
{
    for name in names {
        add_local(alloc, walk, form, name)?;
    }
    Ok(())
}

/// Makes the declarations of as many objects without a value as there are names, with numbers from
/// `first` on.
pub(crate) fn make_bare(
    made: &mut Vec<Declaration>,
    tree: TreeSubtype,
    first: u32,
    names: &[Identifier],
) -> Result<(), AllocError>
    ensures { OnOk result (MakesBare made.old.items made.new.items tree first names.now) }
{
    let mut number = first;
    for _ in names {
        made.push(Declaration::WithoutValue(number, tree))?;
        number = number_behind(number)?;
    }
    Ok(())
}

/// Makes the declaration, which begins at `pos`, of objects that are set to this, from the next number on.
/// It takes the number of a statement obligation.
pub(crate) fn make_set(
    counts: &mut Counts,
    made: &mut Vec<Declaration>,
    pos: Pos,
    value: NewValue,
) -> Result<(), AllocError>
    ensures made { OnOk result (MakesSet counts.old made.old.items made.new.items pos value) }
    ensures taken { OnOk result (Starts counts.old counts.new) }
{
    let number = counts.objects;
    match counts.statement(pos) {
        Ok(label) => {
            made.push(Declaration::Initialized(label, number, value))?;
            Ok(())
        }
        Err(fault) => {
            drop(value);
            Err(fault)
        }
    }
}
