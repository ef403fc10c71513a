//! Declarations that may stand in a subprogram, a block or a package (Ada RM 2012, 3.2 to 3.8, 11.1).

ghost use Rattle.std.specs.Prelude.{◌≡◌, Some, OnOk};
ghost use Rattle.ada_syntax.specs.declared.declaration.DeclarationKind.TheVariants as declares;
ghost use Rattle.program_walk.specs.Going.{GoesOn, IsWalkOpen};
ghost use Rattle.declarations.specs.Values.{DeclaresObjects};
ghost use Rattle.declarations.specs.Declaring.{CountsType, Declares, DeclaresAlone, ComesToDeclared, ComesToAll};

use crate::exceptions::add_exceptions;
use crate::owners::new_identity;
use crate::trees::tree_subtype;
use crate::types::defined;
use crate::values::{bare_objects, set_library_objects, set_locals};
use ada_entities::{Entity, Refusal, Subtype};
use ada_syntax::{
    Constancy, Declaration as Source, DeclarationKind, Identifier, Initial, SubtypeIndication,
    TypeDefinition,
};
use ada_tree::Declaration;
use cov_base::{Failure, Pos};
use program_walk::{Context, DeclaredType, Found, Level, Symbols, Walk, Word};
use std::alloc::{AllocError, Global};

/// Counts a type whose declaration begins at `pos`, with all its values.
fn count_type(
    symbols: &Symbols,
    found: &mut Found,
    generic: Option<u32>,
    pos: Pos,
    subtype: Subtype,
) -> Result<(), AllocError>
    ensures { OnOk result (CountsType symbols.now found.old found.new generic pos subtype) }
{
    let tree = tree_subtype(symbols, subtype)?;
    let word = Word { pos, subtype: tree };
    found.add_type(DeclaredType { generic, word })?;
    Ok(())
}

/// A type declaration that begins at `pos` (RM 3.2.1).
#[tactic(auto, using(program_walk::proofs::GoingLaws::parts))]
fn type_declared(
    alloc: Global,
    context: &Context<'_>,
    walk: &mut Walk,
    pos: Pos,
    name: &Identifier,
    definition: &TypeDefinition,
) -> Result<(), Failure<Refusal>>
    ensures comes { DeclaresAlone context.now walk.old walk.new pos (declares.Type name.now definition.now) result }
    ensures goes { IsWalkOpen walk.old → GoesOn walk.old walk.new result }
{
    walk.symbols.declare(alloc, name)?;
    let identity = new_identity(context, &mut walk.counts)?;
    let subtype = defined(alloc, context, walk, identity, definition)?;
    let found = &mut walk.found;
    count_type(&walk.symbols, found, context.generic, pos, subtype)?;
    walk.symbols
        .redefine(alloc, name, Entity::Mark(identity, subtype))?;
    Ok(())
}

/// A subtype declaration (RM 3.2.2).
#[tactic(auto, using(program_walk::proofs::GoingLaws::parts))]
fn subtype_declared(
    alloc: Global,
    context: &Context<'_>,
    walk: &mut Walk,
    pos: Pos,
    name: &Identifier,
    indication: &SubtypeIndication,
) -> Result<(), Failure<Refusal>>
    ensures comes { DeclaresAlone context.now walk.old walk.new pos (declares.Subtype name.now indication.now) result }
    ensures goes { IsWalkOpen walk.old → GoesOn walk.old walk.new result }
{
    walk.symbols.declare(alloc, name)?;
    let identity = new_identity(context, &mut walk.counts)?;
    let place = context.place(&walk.symbols);
    let subtype = place.indicated(alloc, &mut walk.notes, indication)?;
    walk.symbols
        .redefine(alloc, name, Entity::Mark(identity, subtype))?;
    Ok(())
}

/// Objects with an initial value, in a declaration that begins at `pos`.
#[tactic(auto, using(program_walk::proofs::GoingLaws::parts))]
fn set_objects(
    alloc: Global,
    context: &Context<'_>,
    walk: &mut Walk,
    made: &mut Vec<Declaration>,
    pos: Pos,
    constancy: Constancy,
    subtype: Subtype,
    initial: &Initial,
    names: &[Identifier],
) -> Result<(), Failure<Refusal>>
    ensures comes { DeclaresObjects context.now walk.old walk.new made.old.items made.new.items
        pos constancy subtype names.now (Some initial.now) result }
    ensures goes { IsWalkOpen walk.old → GoesOn walk.old walk.new result }
{
    match context.level {
        Level::Library => set_library_objects(
            alloc, context, walk, pos, constancy, subtype, initial, names,
        ),
        Level::Inside => set_locals(
            alloc, context, walk, made, pos, constancy, subtype, initial, names,
        ),
    }
}

/// Objects, in a declaration that begins at `pos`.
#[tactic(auto, using(program_walk::proofs::GoingLaws::parts))]
fn some_objects(
    alloc: Global,
    context: &Context<'_>,
    walk: &mut Walk,
    made: &mut Vec<Declaration>,
    pos: Pos,
    constancy: Constancy,
    subtype: Subtype,
    initial: &Option<Initial>,
    names: &[Identifier],
) -> Result<(), Failure<Refusal>>
    ensures comes { DeclaresObjects context.now walk.old walk.new made.old.items made.new.items
        pos constancy subtype names.now initial.now result }
    ensures goes { IsWalkOpen walk.old → GoesOn walk.old walk.new result }
{
    match initial {
        Some(initial) => set_objects(
            alloc, context, walk, made, pos, constancy, subtype, initial, names,
        ),
        None => bare_objects(alloc, context, walk, made, pos, constancy, subtype, names),
    }
}

/// A declaration of objects that begins at `pos` (RM 3.3.1).
#[tactic(auto, using(program_walk::proofs::GoingLaws::parts))]
fn objects_declared(
    alloc: Global,
    context: &Context<'_>,
    walk: &mut Walk,
    made: &mut Vec<Declaration>,
    pos: Pos,
    names: &[Identifier],
    constancy: Constancy,
    indication: &SubtypeIndication,
    initial: &Option<Initial>,
) -> Result<(), Failure<Refusal>>
    ensures comes { Declares context.now walk.old walk.new made.old.items made.new.items pos
        (declares.Object names.now constancy indication.now initial.now) result }
    ensures goes { IsWalkOpen walk.old → GoesOn walk.old walk.new result }
{
    walk.symbols.hide_all(alloc, names)?;
    let place = context.place(&walk.symbols);
    let subtype = place.indicated(alloc, &mut walk.notes, indication)?;
    some_objects(
        alloc, context, walk, made, pos, constancy, subtype, initial, names,
    )
}

/// A declaration of exceptions (RM 11.1).
#[tactic(auto, using(program_walk::proofs::GoingLaws::parts))]
fn exceptions_declared(
    alloc: Global,
    context: &Context<'_>,
    walk: &mut Walk,
    pos: Pos,
    names: &[Identifier],
) -> Result<(), Failure<Refusal>>
    ensures comes { DeclaresAlone context.now walk.old walk.new pos (declares.Exception names.now) result }
    ensures goes { IsWalkOpen walk.old → GoesOn walk.old walk.new result }
{
    walk.symbols.hide_all(alloc, names)?;
    add_exceptions(alloc, context, walk, names)?;
    Ok(())
}

/// A declaration of this kind that begins at `pos`. What it adds to the typed program comes behind what
/// was made so far.
#[tactic(auto, using(program_walk::proofs::GoingLaws::parts))]
fn kind_declared(
    alloc: Global,
    context: &Context<'_>,
    walk: &mut Walk,
    made: &mut Vec<Declaration>,
    pos: Pos,
    kind: &DeclarationKind,
) -> Result<(), Failure<Refusal>>
    ensures comes { Declares context.now walk.old walk.new made.old.items made.new.items pos kind.now result }
    ensures goes { IsWalkOpen walk.old → GoesOn walk.old walk.new result }
{
    match kind {
        DeclarationKind::Type(name, definition) => {
            type_declared(alloc, context, walk, pos, name, definition)
        }
        DeclarationKind::Subtype(name, indication) => {
            subtype_declared(alloc, context, walk, pos, name, indication)
        }
        DeclarationKind::Object(names, constancy, indication, initial) => objects_declared(
            alloc,
            context,
            walk,
            made,
            pos,
            names.as_slice(),
            *constancy,
            indication,
            initial,
        ),
        DeclarationKind::Exception(names) => {
            exceptions_declared(alloc, context, walk, pos, names.as_slice())
        }
        DeclarationKind::Pragma(_) => Ok(()),
    }
}

/// A declaration. What it adds to the typed program comes behind what was made so far. Refused at the
/// rules' own place.
pub fn declared(
    alloc: Global,
    context: &Context<'_>,
    walk: &mut Walk,
    made: &mut Vec<Declaration>,
    declaration: &Source,
) -> Result<(), Failure<Refusal>>
    ensures comes { ComesToDeclared context.now walk.old walk.new made.old.items made.new.items declaration.now result }
    ensures goes { IsWalkOpen walk.old → GoesOn walk.old walk.new result }
{
    let pos = declaration.pos;
    kind_declared(alloc, context, walk, made, pos, &declaration.kind)
}

/// Declarations in order, each in the region that those before it leave, and the declarations of the
/// typed program that they make. Refused at the rules' own place.
#[tactic(auto, using(program_walk::proofs::GoingLaws::parts))]
pub fn all_declared(
    alloc: Global,
    context: &Context<'_>,
    walk: &mut Walk,
    declarations: &[Source],
) -> Result<Vec<Declaration>, Failure<Refusal>>
    ensures comes { ComesToAll context.now walk.old walk.new declarations.now result }
    ensures goes { IsWalkOpen walk.old → GoesOn walk.old walk.new result }
{
    let mut made = Vec::new(alloc);
    for declaration in declarations {
        declared(alloc, context, walk, &mut made, declaration)?;
    }
    Ok(made)
}
