//! Components of records (Ada RM 2012, 3.8).

ghost use Rattle.std.specs.Prelude.{◌≡◌, OnOk};
ghost use Rattle.program_walk.specs.Changes.{IsOpen, ChangesInside};
ghost use Rattle.program_walk.specs.Going.{GoesOn, IsWalkOpen};
ghost use Rattle.declarations.specs.Components.{DeclaresComponents, AddsNamed, AddsFields, ComesToFields};

use ada_entities::{Component as Field, Entity, Refusal, Subtype, key};
use ada_syntax::{Component, Identifier};
use cov_base::{Bytes, Failure};
use program_walk::{Context, Symbols, Walk};
use std::alloc::{AllocError, Global};

/// Lets names of the innermost region denote components.
fn declare_components(
    alloc: Global,
    symbols: &mut Symbols,
    names: &[Identifier],
) -> Result<(), AllocError>
    ensures components { OnOk result (DeclaresComponents symbols.old symbols.new names.now) }
    ensures inside { OnOk result (IsOpen symbols.old → ChangesInside symbols.old symbols.new) }
{
    for name in names {
        symbols.redefine(alloc, name, Entity::Component)?;
    }
    Ok(())
}

/// Adds components of one subtype under these names.
fn add_named(
    alloc: Global,
    fields: &mut Vec<Field>,
    subtype: Subtype,
    names: &[Identifier],
) -> Result<(), AllocError>
    ensures { OnOk result (AddsNamed fields.old.items fields.new.items subtype names.now) }
{
    for name in names {
        let name = Bytes::from(key(alloc, name)?);
        fields.push(Field { name, subtype })?;
    }
    Ok(())
}

/// Adds the components of one declaration, whose names are hidden in it, and are components behind it.
#[tactic(auto, using(program_walk::proofs::GoingLaws::parts))]
fn add_fields(
    alloc: Global,
    context: &Context<'_>,
    walk: &mut Walk,
    fields: &mut Vec<Field>,
    component: &Component,
) -> Result<(), Failure<Refusal>>
    ensures comes { AddsFields context.now walk.old walk.new fields.old.items fields.new.items component.now result }
    ensures goes { IsWalkOpen walk.old → GoesOn walk.old walk.new result }
{
    walk.symbols.hide_all(alloc, component.names.as_slice())?;
    let place = context.place(&walk.symbols);
    let subtype = place.indicated(alloc, &mut walk.notes, &component.indication)?;
    declare_components(alloc, &mut walk.symbols, component.names.as_slice())?;
    add_named(alloc, fields, subtype, component.names.as_slice())?;
    Ok(())
}

/// The components of a record, in order, in a region of their own.
#[tactic(auto, using(program_walk::proofs::GoingLaws::parts))]
pub(crate) fn fields(
    alloc: Global,
    context: &Context<'_>,
    walk: &mut Walk,
    components: &[Component],
) -> Result<Vec<Field>, Failure<Refusal>>
    ensures comes { ComesToFields context.now walk.old walk.new components.now result }
    ensures goes { IsWalkOpen walk.old → GoesOn walk.old walk.new result }
{
    let mut fields = Vec::new(alloc);
    for component in components {
        add_fields(alloc, context, walk, &mut fields, component)?;
    }
    Ok(fields)
}
