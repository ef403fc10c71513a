//! The first place at which a limit is passed (Ada RM 2012, 1.1.3).

ghost use Rattle.std.specs.Prelude.{IfOk};
ghost use Rattle.word_limits.specs.Excess.{IsFirstExcess};

use crate::excess::{first_object, first_place, first_type};
use crate::limit::earlier;
use crate::units::first_unit;
use crate::words::WordTable;
use ada_demands::Instances;
use ada_syntax::Unit;
use ada_tree::TypeDeclaration;
use cov_base::Pos;
use program_walk::Walk;
use std::alloc::{AllocError, Global};

/// Where a program passes a limit first, if it does: with what a walk over these units has found, the
/// composite types in the order of their numbers, and what instances have. There is no memory where a
/// type is named in an instance in which it does not stand; no legal text has one.
pub fn first_excess(
    alloc: Global,
    types: &[TypeDeclaration],
    instances: &Instances,
    walk: &Walk,
    units: &[Unit],
) -> Result<Option<Pos>, AllocError>
    ensures { IfOk result (IsFirstExcess types.now instances.now walk.now units.now) }
{
    let table = WordTable::of(alloc, types, instances)?;
    let found = &walk.found;
    let counted = first_place(walk.notes.decisions.excesses.as_slice());
    let declared = first_type(alloc, &table, found.types.as_slice())?;
    let object = first_object(alloc, &table, found.subprogram_words.as_slice())?;
    let unit = first_unit(&table, &walk.symbols, found.unit_words.as_slice(), units)?;
    Ok(earlier(counted, earlier(declared, earlier(object, unit))))
}
