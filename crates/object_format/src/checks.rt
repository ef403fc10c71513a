//! The checks of an object's parts, in their order.

ghost use Rattle.std.specs.Prelude.{OnOk, IfErr};
ghost use Rattle.object_format.specs.Checked.{IsSound, IsRefusal};

use crate::checks::decision::passes_decision;
use crate::checks::field::passes_field;
use crate::checks::role::passes_role;
use crate::checks::row::passes_row;
use crate::fault::ObjectFault;
use crate::object::Object;
use cov_base::Failure;
use std::alloc::Global;

mod decision;
mod field;
mod order;
mod role;
mod row;
mod text;

pub use text::an_object_is_laid_out;

/// Whether the parts of an object pass the four checks, and else the first that they fail.
pub(crate) fn check(alloc: Global, value: &Object) -> Result<(), Failure<ObjectFault>>
    ensures sound { OnOk result (IsSound value.now) }
    ensures refused { IfErr result (IsRefusal value.now) }
{
    if !passes_field(value) {
        return Err(Failure::Fault(ObjectFault::Field));
    }
    if !passes_decision(value) {
        return Err(Failure::Fault(ObjectFault::Decision));
    }
    if !passes_row(alloc, value)? {
        return Err(Failure::Fault(ObjectFault::Row));
    }
    if !passes_role(alloc, value)? {
        return Err(Failure::Fault(ObjectFault::Role));
    }
    Ok(())
}
