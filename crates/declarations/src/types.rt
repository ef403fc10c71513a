//! Definitions of types (Ada RM 2012, 3.5.1, 3.5.4, 3.6, 3.8).

ghost use Rattle.std.specs.Prelude.{◌≡◌, IfOk, OnOk};
ghost use Rattle.ada_syntax.specs.declared.declaration.TypeDefinition.TheVariants as definition;
ghost use Rattle.program_walk.specs.Changes.{Grows};
ghost use Rattle.program_walk.specs.Going.{GoesOn, KeepsOn, IsWalkOpen};
ghost use Rattle.declarations.specs.Types.{IsDefinedAs, IsEnumerated, GoesAsSymbols, IsDefined};

use crate::components::fields;
use crate::literals::{declare_literals, enumeration};
use ada_entities::{AdaType, Composite, Definition, Identity, Refusal, ScalarType, Subtype};
use ada_syntax::{Bounds, Component, DiscreteRange, Identifier, SubtypeIndication, TypeDefinition};
use ada_tree::Owner;
use cov_base::{Failure, Seq};
use program_walk::{Accepted, Context, Symbols, Walk};
use std::alloc::{AllocError, Global};

/// The composite type of this identity with this definition.
fn composite(
    symbols: &mut Symbols,
    identity: Identity,
    definition: Definition,
) -> Result<Subtype, AllocError>
    ensures defined { IfOk result (IsDefinedAs symbols.old symbols.new identity definition) }
    ensures grown { OnOk result (Grows symbols.old symbols.new) }
{
    let number = symbols.add_type(definition)?;
    let composite = Composite {
        identity,
        number,
        seen: Owner::Here,
    };
    Ok(Subtype {
        of: AdaType::Composite(composite),
        range: Subtype::integer().range,
    })
}

/// An enumeration with these literals, which are hidden in its definition, and declared by it (RM 3.5.1).
#[tactic(auto, using(program_walk::proofs::GoingLaws::parts))]
fn enumerated(
    alloc: Global,
    symbols: &mut Symbols,
    identity: Identity,
    names: &[Identifier],
) -> Result<Subtype, Failure<Refusal>>
    ensures comes { IsEnumerated symbols.old symbols.new identity names.now result }
    ensures goes { GoesAsSymbols symbols.old symbols.new result }
{
    symbols.hide_all(alloc, names)?;
    let subtype = enumeration(identity, names.len())?;
    declare_literals(alloc, symbols, subtype.of, names)?;
    Ok(subtype)
}

/// An integer type (RM 3.5.4).
#[tactic(auto, using(program_walk::proofs::GoingLaws::parts))]
fn integer_type(
    alloc: Global,
    context: &Context<'_>,
    walk: &mut Walk,
    identity: Identity,
    bounds: &Bounds,
) -> Result<Subtype, Failure<Refusal>>
    ensures comes { IsDefined context.now walk.old walk.new identity (definition.Integer bounds.now) result }
    ensures keeps { KeepsOn walk.old walk.new result }
{
    let place = context.place(&walk.symbols);
    let base = Subtype::integer().range;
    let range = place.bounded(alloc, &mut walk.notes, Accepted::Integral, base, bounds)?;
    Ok(Subtype {
        of: AdaType::Scalar(ScalarType::Integer(identity)),
        range,
    })
}

/// An array (RM 3.6).
#[tactic(auto, using(program_walk::proofs::GoingLaws::parts))]
fn array_type(
    alloc: Global,
    context: &Context<'_>,
    walk: &mut Walk,
    identity: Identity,
    range: &DiscreteRange,
    indication: &SubtypeIndication,
) -> Result<Subtype, Failure<Refusal>>
    ensures comes { IsDefined context.now walk.old walk.new identity
        (definition.Array range.now indication.now) result }
    ensures keeps { KeepsOn walk.old walk.new result }
{
    let place = context.place(&walk.symbols);
    let index = place.index_of(alloc, &mut walk.notes, range)?;
    let component = place.indicated(alloc, &mut walk.notes, indication)?;
    let definition = Definition::Array(index, component);
    let subtype = composite(&mut walk.symbols, identity, definition)?;
    Ok(subtype)
}

/// A record (RM 3.8).
#[tactic(auto, using(program_walk::proofs::GoingLaws::parts))]
fn record_type(
    alloc: Global,
    context: &Context<'_>,
    walk: &mut Walk,
    identity: Identity,
    components: &[Component],
) -> Result<Subtype, Failure<Refusal>>
    ensures comes { IsDefined context.now walk.old walk.new identity (definition.Record components.now) result }
    ensures keeps { KeepsOn walk.old walk.new result }
{
    walk.symbols.open(alloc)?;
    let fields = fields(alloc, &context.inside(), walk, components)?;
    let _ = walk.symbols.close(alloc);
    let definition = Definition::Record(Seq::from(fields));
    let subtype = composite(&mut walk.symbols, identity, definition)?;
    Ok(subtype)
}

/// What a type declaration defines. Refused at the rules' own place.
#[tactic(auto, using(program_walk::proofs::GoingLaws::parts))]
pub(crate) fn defined(
    alloc: Global,
    context: &Context<'_>,
    walk: &mut Walk,
    identity: Identity,
    definition: &TypeDefinition,
) -> Result<Subtype, Failure<Refusal>>
    ensures comes { IsDefined context.now walk.old walk.new identity definition.now result }
    ensures goes { IsWalkOpen walk.old → GoesOn walk.old walk.new result }
{
    match definition {
        TypeDefinition::Integer(bounds) => integer_type(alloc, context, walk, identity, bounds),
        TypeDefinition::Enumeration(names) => {
            enumerated(alloc, &mut walk.symbols, identity, names.as_slice())
        }
        TypeDefinition::Array(range, indication) => {
            array_type(alloc, context, walk, identity, range, indication)
        }
        TypeDefinition::Record(components) => {
            record_type(alloc, context, walk, identity, components.as_slice())
        }
    }
}
