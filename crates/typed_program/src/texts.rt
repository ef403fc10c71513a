//! The generics in whose texts composite types are declared (Ada RM 2012, 12.1).

ghost use Rattle.std.specs.Prelude.{IfOk, OnOk, IsTrue};
ghost use Rattle.typed_program.specs.TypeTexts.{IsNoted, HasNumber, AreTexts, AreAllTexts, AreTypeTexts};

use ada_tree::{Owner, Subtype};
use program_walk::{DeclaredType, Walk};
use std::alloc::{AllocError, Global};

/// Whether a composite type is itself the one behind so many others.
fn is_next(owner: Owner, number: u32, count: usize) -> bool
    ensures { IsTrue result → HasNumber count owner number }
{
    match owner {
        Owner::Here => number as usize == count,
        Owner::Instance(_) => false,
    }
}

/// Notes the generic in whose text a type is declared, where it is composite. Types are noted in the order
/// of their numbers, as the walk declares them: another one has no memory.
fn note(generics: &mut Vec<Option<u32>>, declared: DeclaredType) -> Result<(), AllocError>
    ensures { OnOk result (IsNoted declared.word.subtype declared.generic generics.old.items generics.new.items) }
{
    if let Subtype::Composite(owner, number) = declared.word.subtype {
        if !is_next(owner, number, generics.len()) {
            return Err(AllocError);
        }
        generics.push(declared.generic)?;
    }
    Ok(())
}

/// For each composite type that is declared the generic in whose text it stands, if it is one of a
/// generic, by their numbers.
fn generics_among(alloc: Global, types: &[DeclaredType]) -> Result<Vec<Option<u32>>, AllocError>
    ensures { IfOk result (λ gs. AreTexts types.now gs.items) }
{
    let mut generics = Vec::new(alloc);
    for declared in types {
        note(&mut generics, *declared)?;
    }
    Ok(generics)
}

/// The same where there are so many composite types: where some are not declared there is no memory.
fn all_generics_among(
    alloc: Global,
    count: usize,
    types: &[DeclaredType],
) -> Result<Vec<Option<u32>>, AllocError>
    ensures { IfOk result (λ gs. AreAllTexts count types.now gs.items) }
{
    let generics = generics_among(alloc, types)?;
    if generics.len() != count {
        return Err(AllocError);
    }
    Ok(generics)
}

/// For each composite type of a walk the generic in whose text it is declared, if it is one of a generic.
pub fn type_texts(alloc: Global, walk: &Walk) -> Result<Vec<Option<u32>>, AllocError>
    ensures { IfOk result (λ gs. AreTypeTexts walk.now gs.items) }
{
    let count = walk.symbols.types().definitions().len();
    all_generics_among(alloc, count, walk.found.types.as_slice())
}
