//! Whose declarations are, and which types they declare (Ada RM 2012, 3.1, 12.3).

ghost use Rattle.std.specs.Prelude.{◌≡◌, is_some, IfOk, OnOk, if◌then◌else◌};
ghost use Rattle.ada_meaning.specs.Types.{here, of_instance};
ghost use Rattle.ada_tree.specs.View.{owner_of};
ghost use Rattle.program_walk.specs.Counting.{CountsType};
ghost use Rattle.program_walk.specs.Owners.{IsNewIdentity};

use ada_entities::{Identity, TypeName};
use ada_tree::Owner;
use program_walk::{Context, Counts};
use std::alloc::AllocError;

/// Who owns what is declared in the text of a generic, or in none.
pub(crate) fn owner(generic: Option<u32>) -> Owner
    ensures { owner_of result ≡ (if is_some generic then here else of_instance 0) }
{
    match generic {
        Some(_) => Owner::Here,
        None => Owner::Instance(0),
    }
}

/// The identity of the next type or subtype of the unit.
pub(crate) fn new_identity(
    context: &Context<'_>,
    counts: &mut Counts,
) -> Result<Identity, AllocError>
    ensures identity { IfOk result (IsNewIdentity context.now counts.old) }
    ensures taken { OnOk result (CountsType counts.old counts.new) }
{
    let number = counts.declared_type()?;
    Ok(Identity::Declared(TypeName {
        owner: owner(context.generic),
        unit: context.unit,
        number,
    }))
}
