//! Formals of generics (Ada RM 2012, 12.1, 12.4 to 12.6).

ghost use Rattle.std.specs.Prelude.{◌≡◌, IfOk, OnOk};
ghost use Rattle.cov_base.specs.declared.position.Pos.{Pos};
ghost use Rattle.ada_syntax.specs.declared.unit.FormalKind.TheVariants as formal;
ghost use Rattle.ada_rules.specs.Types.{of_type, formal_type};
ghost use Rattle.ada_rules.specs.Instances as rules;
ghost use Rattle.ada_meaning.specs.Types.{formal_range};
ghost use Rattle.ada_entities.specs.Views.{TypeTables, identity_of, is_integral, subtype_of};
ghost use Rattle.program_walk.specs.Changes.{IsOpen, ChangesInside};
ghost use Rattle.program_walk.specs.Counting.{CountsType};
ghost use Rattle.program_walk.specs.Going.{GoesOn, IsWalkOpen};
ghost use Rattle.program_walk.specs.Owners.{IsNewIdentity};
ghost use Rattle.specifications.specs.Routines.{ComesToRegion};
ghost use Rattle.unit_walk.specs.Formals.{object_declared, AddsFormal, ComesToFormal};

use ada_entities::{
    AdaType, Completion, Entity, FormalKind, Identity, Refusal, Routine, ScalarType, Subtype,
    TypeName, Values,
};
use ada_syntax::{Formal, FormalKind as Source, Identifier, Name, Specification};
use ada_tree::{Callee, Owner, ScalarRange, StaticValue};
use cov_base::{Failure, number_behind};
use program_walk::{Context, Counts, Symbols, Walk};
use specifications::{Profile, enter_routine, owner, profile_alone};
use std::alloc::{AllocError, Global};

/// The identity of the next type or subtype of the unit.
fn new_identity(context: &Context<'_>, counts: &mut Counts) -> Result<Identity, AllocError>
    ensures identity { IfOk result (IsNewIdentity context.now counts.old) }
    ensures taken { OnOk result (CountsType counts.old counts.new) }
{
    let number = counts.declared_type()?;
    Ok(Identity::Declared(TypeName {
        owner: owner(context.generic),
        unit: context.unit,
        number,
    }))
}

/// All values of the formal type of this identity, which has this place among the formals of the generic.
fn formal_subtype(identity: Identity, place: u32, kind: FormalKind) -> Subtype
    ensures { (k : TypeTables) → subtype_of k result
        ≡ of_type (formal_type (identity_of identity) place (is_integral kind)) (formal_range place) }
{
    Subtype {
        of: AdaType::Scalar(ScalarType::Formal(identity, place, kind)),
        range: ScalarRange::Formal(Owner::Here, place),
    }
}

/// The formal type with this place among the formals of the generic (RM 12.5).
#[tactic(auto, using(program_walk::proofs::GoingLaws::parts))]
fn formal_type(
    alloc: Global,
    context: &Context<'_>,
    walk: &mut Walk,
    place: u32,
    name: &Identifier,
    kind: FormalKind,
) -> Result<(), Failure<Refusal>>
    ensures comes { ComesToFormal context.now walk.old walk.new
        (λ env s. rules.formal_type_declared env s name.now place (is_integral kind)) result }
    ensures goes { IsWalkOpen walk.old → GoesOn walk.old walk.new result }
{
    walk.symbols.declare(alloc, name)?;
    let identity = new_identity(context, &mut walk.counts)?;
    let subtype = formal_subtype(identity, place, kind);
    walk.symbols
        .redefine(alloc, name, Entity::Mark(identity, subtype))?;
    Ok(())
}

/// The formal object with this place among the formals of the generic, of the subtype that a mark names
/// (RM 12.4).
#[tactic(auto, using(program_walk::proofs::GoingLaws::parts))]
fn formal_object(
    alloc: Global,
    context: &Context<'_>,
    walk: &mut Walk,
    place: u32,
    name: &Identifier,
    mark: &Name,
) -> Result<(), Failure<Refusal>>
    ensures comes { ComesToFormal context.now walk.old walk.new
        (λ env s. object_declared env s place name.now mark.now) result }
    ensures goes { IsWalkOpen walk.old → GoesOn walk.old walk.new result }
{
    walk.symbols.declare(alloc, name)?;
    let there = context.place(&walk.symbols);
    let site = there.site;
    let marked = site.scalar_mark(alloc, &mut walk.notes.decisions, mark)?;
    let value = StaticValue::Formal(place);
    let entity = Entity::FormalObject(marked.subtype, Owner::Here, value);
    walk.symbols.redefine(alloc, name, entity)?;
    Ok(())
}

/// Adds the formal subprogram with this place among the formals of the generic, and lets a name of the
/// innermost region denote it. One whose numbers lead nowhere has no memory.
fn add_formal(
    alloc: Global,
    symbols: &mut Symbols,
    name: &Identifier,
    profile: Profile,
    place: u32,
) -> Result<(), AllocError>
    ensures added { OnOk result (AddsFormal symbols.old symbols.new name.now profile place) }
    ensures inside { OnOk result (IsOpen symbols.old → ChangesInside symbols.old symbols.new) }
{
    let Profile { parameters, result } = profile;
    let routine = Routine {
        callee: Callee::Formal(place),
        parameters,
        result,
        values: Values::OfFormalResult(place),
    };
    enter_routine(alloc, symbols, name, routine, Completion::Complete)
}

/// The formal subprogram with this place among the formals of the generic (RM 12.6).
#[tactic(auto, using(program_walk::proofs::GoingLaws::parts))]
fn formal_subprogram(
    alloc: Global,
    context: &Context<'_>,
    walk: &mut Walk,
    place: u32,
    specification: &Specification,
) -> Result<(), Failure<Refusal>>
    ensures comes { ComesToFormal context.now walk.old walk.new
        (λ env s. rules.formal_declared env s place (formal.Subprogram specification.now)) result }
    ensures goes { IsWalkOpen walk.old → GoesOn walk.old walk.new result }
{
    let name = &specification.name;
    walk.symbols.declare(alloc, name)?;
    let profile = profile_alone(alloc, context, walk, specification)?;
    add_formal(alloc, &mut walk.symbols, name, profile, place)?;
    Ok(())
}

/// The formal with this place among the formals of the generic, of whatever kind.
fn formal_declared(
    alloc: Global,
    context: &Context<'_>,
    walk: &mut Walk,
    place: u32,
    formal: &Formal,
) -> Result<(), Failure<Refusal>>
    ensures comes { ComesToFormal context.now walk.old walk.new
        (λ env s. rules.formal_declared env s place formal.now.kind) result }
    ensures goes { IsWalkOpen walk.old → GoesOn walk.old walk.new result }
{
    match &formal.kind {
        Source::DiscreteType(name) => {
            formal_type(alloc, context, walk, place, name, FormalKind::Discrete)
        }
        Source::IntegerType(name) => {
            formal_type(alloc, context, walk, place, name, FormalKind::Integer)
        }
        Source::Object(name, _, mark) => formal_object(alloc, context, walk, place, name, mark),
        Source::Subprogram(specification) => {
            formal_subprogram(alloc, context, walk, place, specification)
        }
    }
}

/// The formals of a generic, in order, in the innermost region; they are numbered from 0 (RM 12.1).
/// Refused at the rules' own place.
#[tactic(auto, using(program_walk::proofs::GoingLaws::parts))]
pub fn formals_declared(
    alloc: Global,
    context: &Context<'_>,
    walk: &mut Walk,
    formals: &[Formal],
) -> Result<(), Failure<Refusal>>
    ensures comes { (p : Pos) → ComesToRegion context.now walk.old walk.new
        (λ k env s. (rules.formals_declared env s p 0 formals.now).answer) result }
    ensures goes { IsWalkOpen walk.old → GoesOn walk.old walk.new result }
{
    let mut place = 0;
    for formal in formals {
        formal_declared(alloc, context, walk, place, formal)?;
        place = number_behind(place)?;
    }
    Ok(())
}
