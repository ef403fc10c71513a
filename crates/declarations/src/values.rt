//! Objects, with and without an initial value (Ada RM 2012, 3.3.1).

ghost use Rattle.std.specs.Prelude.{◌≡◌, None, Some, OnOk, if◌then◌else◌};
ghost use Rattle.ada_rules.specs.Declarations as rules;
ghost use Rattle.program_walk.specs.Going.{GoesInside, GoesOn, IsWalkOpen};
ghost use Rattle.declarations.specs.Values.{IsAllowed, MakesBareLocals, MakesLocals, MakesLibraryObjects};
ghost use Rattle.declarations.specs.Values.{DeclaresObjects, SetsLibraryObjects, SetsLocals};

use crate::constants::{library_constant, local_constant};
use crate::initial::{LibraryValue, library_value};
use crate::library::add_objects;
use crate::locals::{add_locals, make_bare, make_set};
use crate::objects::ObjectForm;
use crate::trees::tree_subtype;
use ada_entities::{Refusal, Subtype, refused};
use ada_phrases::Step;
use ada_syntax::{Constancy, Identifier, Initial};
use ada_tree::Declaration;
use cov_base::{Failure, Pos};
use object_values::{NewValue, new_value};
use program_walk::{Context, Level, Walk};
use std::alloc::{AllocError, Global};

/// Declares objects of a subprogram without an initial value.
fn make_bare_locals(
    alloc: Global,
    walk: &mut Walk,
    made: &mut Vec<Declaration>,
    constancy: Constancy,
    subtype: Subtype,
    names: &[Identifier],
) -> Result<(), AllocError>
    ensures made { OnOk result (MakesBareLocals walk.old walk.new made.old.items made.new.items
        constancy subtype names.now) }
    ensures inside { OnOk result (IsWalkOpen walk.old → GoesInside walk.old walk.new) }
{
    let tree = tree_subtype(&walk.symbols, subtype)?;
    let form = ObjectForm {
        constancy,
        subtype,
        tree,
        known: None,
    };
    make_bare(made, tree, walk.counts.objects, names)?;
    add_locals(alloc, walk, form, names)?;
    Ok(())
}

/// Declares objects of a subprogram that are set to this, in a declaration that begins at `pos`. Their
/// declaration is a statement obligation.
fn make_locals(
    alloc: Global,
    context: &Context<'_>,
    walk: &mut Walk,
    made: &mut Vec<Declaration>,
    pos: Pos,
    constancy: Constancy,
    subtype: Subtype,
    value: NewValue,
    names: &[Identifier],
) -> Result<(), AllocError>
    ensures made { OnOk result (MakesLocals context.now walk.old walk.new made.old.items made.new.items
        pos constancy subtype value names.now) }
    ensures inside { OnOk result (IsWalkOpen walk.old → GoesInside walk.old walk.new) }
{
    let statics = &mut walk.notes.statics;
    let known = local_constant(
        alloc,
        statics,
        context.instances,
        context.generic,
        constancy,
        subtype,
        value.known,
    );
    make_set(&mut walk.counts, made, pos, value.value)?;
    let form = ObjectForm {
        constancy,
        subtype,
        tree: tree_subtype(&walk.symbols, subtype)?,
        known: known?,
    };
    add_locals(alloc, walk, form, names)?;
    Ok(())
}

/// Declares objects of the library level with this initial value.
fn make_library_objects(
    alloc: Global,
    context: &Context<'_>,
    walk: &mut Walk,
    constancy: Constancy,
    subtype: Subtype,
    value: LibraryValue,
    names: &[Identifier],
) -> Result<(), AllocError>
    ensures made { OnOk result (MakesLibraryObjects context.now walk.old walk.new constancy subtype value names.now) }
    ensures inside { OnOk result (IsWalkOpen walk.old → GoesInside walk.old walk.new) }
{
    let statics = &mut walk.notes.statics;
    let known = library_constant(
        alloc,
        statics,
        context.generic,
        constancy,
        subtype,
        value.known,
    )?;
    let form = ObjectForm {
        constancy,
        subtype,
        tree: tree_subtype(&walk.symbols, subtype)?,
        known,
    };
    add_objects(alloc, context, walk, form, value.initial, names)?;
    Ok(())
}

/// In the step of types this is met.
fn allowed(step: Step, pos: Pos, is_met: bool) -> Result<(), Failure<Refusal>>
    ensures { IsAllowed step pos (if is_met then Some tt else None) result }
{
    match (step, is_met) {
        (Step::Typing, false) => Err(refused(pos)),
        _ => Ok(()),
    }
}

/// In the step of types a constant has a value.
fn may_be_bare(step: Step, pos: Pos, constancy: Constancy) -> Result<(), Failure<Refusal>>
    ensures { IsAllowed step pos (rules.may_be_bare constancy) result }
{
    match (step, constancy) {
        (Step::Typing, Constancy::Constant) => Err(refused(pos)),
        _ => Ok(()),
    }
}

/// In the step of types what has a value has one name.
fn one_name(step: Step, pos: Pos, names: &[Identifier]) -> Result<(), Failure<Refusal>>
    ensures { IsAllowed step pos (rules.one_name names.now) result }
{
    allowed(step, pos, names.len() == 1)
}

/// Objects without an initial value, in a declaration that begins at `pos`.
#[tactic(auto, using(program_walk::proofs::GoingLaws::parts))]
pub(crate) fn bare_objects(
    alloc: Global,
    context: &Context<'_>,
    walk: &mut Walk,
    made: &mut Vec<Declaration>,
    pos: Pos,
    constancy: Constancy,
    subtype: Subtype,
    names: &[Identifier],
) -> Result<(), Failure<Refusal>>
    ensures comes { DeclaresObjects context.now walk.old walk.new made.old.items made.new.items
        pos constancy subtype names.now None result }
    ensures goes { IsWalkOpen walk.old → GoesOn walk.old walk.new result }
{
    may_be_bare(context.step, pos, constancy)?;
    match context.level {
        Level::Library => {
            let none = LibraryValue::none();
            make_library_objects(alloc, context, walk, constancy, subtype, none, names)?;
            Ok(())
        }
        Level::Inside => {
            make_bare_locals(alloc, walk, made, constancy, subtype, names)?;
            Ok(())
        }
    }
}

/// Objects of the library level with an initial value, in a declaration that begins at `pos`.
#[tactic(auto, using(program_walk::proofs::GoingLaws::parts))]
pub(crate) fn set_library_objects(
    alloc: Global,
    context: &Context<'_>,
    walk: &mut Walk,
    pos: Pos,
    constancy: Constancy,
    subtype: Subtype,
    initial: &Initial,
    names: &[Identifier],
) -> Result<(), Failure<Refusal>>
    ensures comes { SetsLibraryObjects context.now walk.old walk.new pos constancy subtype names.now
        initial.now result }
    ensures goes { IsWalkOpen walk.old → GoesOn walk.old walk.new result }
{
    let place = context.place(&walk.symbols);
    let value = library_value(alloc, &place, &mut walk.notes, pos, subtype, initial)?;
    one_name(context.step, pos, names)?;
    make_library_objects(alloc, context, walk, constancy, subtype, value, names)?;
    Ok(())
}

/// Objects of a subprogram with an initial value, in a declaration that begins at `pos`.
#[tactic(auto, using(program_walk::proofs::GoingLaws::parts))]
pub(crate) fn set_locals(
    alloc: Global,
    context: &Context<'_>,
    walk: &mut Walk,
    made: &mut Vec<Declaration>,
    pos: Pos,
    constancy: Constancy,
    subtype: Subtype,
    initial: &Initial,
    names: &[Identifier],
) -> Result<(), Failure<Refusal>>
    ensures comes { SetsLocals context.now walk.old walk.new made.old.items made.new.items
        pos constancy subtype names.now initial.now result }
    ensures goes { IsWalkOpen walk.old → GoesOn walk.old walk.new result }
{
    let place = context.place(&walk.symbols);
    let decisions = &mut walk.notes.decisions;
    let value = new_value(alloc, &place.site, decisions, pos, subtype, initial)?;
    match one_name(context.step, pos, names) {
        Ok(()) => {
            make_locals(
                alloc, context, walk, made, pos, constancy, subtype, value, names,
            )?;
            Ok(())
        }
        Err(fault) => {
            drop(value);
            Err(fault)
        }
    }
}
