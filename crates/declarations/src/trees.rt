//! Subtypes as the typed program has them (Ada RM 2012, 3.2).

ghost use Rattle.std.specs.Prelude.{◌≡◌, IfOk};
ghost use Rattle.program_walk.specs.Trees.{IsTreeOf};

use ada_entities::{Subtype, subtype_in_tree};
use ada_tree::Subtype as TreeSubtype;
use program_walk::Symbols;
use std::alloc::AllocError;

/// A subtype as the typed program has it. One that leads nowhere has no memory.
pub(crate) fn tree_subtype(symbols: &Symbols, subtype: Subtype) -> Result<TreeSubtype, AllocError>
    ensures { IfOk result (IsTreeOf symbols.now subtype) }
{
    if !symbols.knows(subtype.of) {
        return Err(AllocError);
    }
    Ok(subtype_in_tree(subtype))
}
