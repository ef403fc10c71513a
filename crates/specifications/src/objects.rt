//! Parameters as objects of their subprogram (Ada RM 2012, 6.1, 6.2).

ghost use Rattle.std.specs.Prelude.{◌≡◌, nat_eq, not, IfOk, OnOk};
ghost use Rattle.ada_tree.specs.Programs.{mode_of};
ghost use Rattle.ada_rules.specs.Environment.{exceeded, State};
ghost use Rattle.ada_rules.specs.Subprograms as rules;
ghost use Rattle.ada_rules.specs.Subprograms.{is_in, most_parameters};
ghost use Rattle.ada_entities.specs.EntityViews.{Tables, entity_of, is_variable};
ghost use Rattle.ada_entities.specs.Views.{subtype_of};
ghost use Rattle.ada_phrases.specs.Answers.{counted};
ghost use Rattle.program_walk.specs.Going.{GoesInside, IsWalkOpen};
ghost use Rattle.program_walk.specs.Trees.{IsTreeOf};
ghost use Rattle.specifications.specs.Objects.{AddsObject, AddsObjects, AddsNamed, NotesLimit};

use ada_entities::{
    Access, DeclaredObject, Entity, Parameter, Subtype, Values, key, subtype_in_tree,
};
use ada_phrases::Decisions;
use ada_syntax::Identifier;
use ada_tree::{Mode, Object, Subtype as TreeSubtype};
use cov_base::{Bytes, Pos, number_behind};
use program_walk::{Marked, Symbols, Walk, Word};
use std::alloc::{AllocError, Global};

/// The most parameters of a subprogram.
const MOST_PARAMETERS: u32 = 16;

/// What parameters are declared as: of which mode and subtype, which is this one of the typed program.
#[derive(Clone, Copy)]
pub(crate) struct ParameterForm {
    pub(crate) mode: Mode,
    pub(crate) marked: Marked,
    pub(crate) tree: TreeSubtype,
}

/// Whether a parameter of this mode may be assigned (RM 6.2).
fn access(mode: Mode) -> Access
    ensures { is_variable result ≡ not (is_in (mode_of mode)) }
{
    match mode {
        Mode::In => Access::Constant,
        Mode::Out | Mode::InOut => Access::Variable,
    }
}

impl ParameterForm {
    /// What the name of the parameter with this number denotes.
    fn entity(self, number: u32) -> Entity
        ensures { (k : Tables) → entity_of k result
            ≡ rules.parameter_entity number (mode_of self.mode) (subtype_of k.types self.marked.subtype) }
    {
        let subtype = self.marked.subtype;
        Entity::Object(DeclaredObject {
            object: Object::Local(number),
            subtype,
            access: access(self.mode),
            known: None,
            values: Values::Within(subtype.range),
        })
    }
}

/// A subtype as the typed program has it. One that leads nowhere has no memory.
pub fn tree_subtype(symbols: &Symbols, subtype: Subtype) -> Result<TreeSubtype, AllocError>
    ensures { IfOk result (IsTreeOf symbols.now subtype) }
{
    if !symbols.knows(subtype.of) {
        return Err(AllocError);
    }
    Ok(subtype_in_tree(subtype))
}

/// Whether the parameter with this number is the first one beyond the limit.
fn is_first_beyond(number: u32) -> bool
    ensures { result ≡ nat_eq number most_parameters }
{
    number == MOST_PARAMETERS
}

/// Keeps the place of a parameter with this number, where it is the first one beyond the limit.
fn note_excess(decisions: &mut Decisions, number: u32, pos: Pos) -> Result<(), AllocError>
    ensures { OnOk result ((s : State) → counted decisions.new s
        ≡ exceeded (nat_eq number most_parameters) pos (counted decisions.old s)) }
{
    if !is_first_beyond(number) {
        return Ok(());
    }
    decisions.excesses.push(pos)?;
    Ok(())
}

/// Keeps the place of the first parameter beyond the limit, if it is one of these, whose numbers begin
/// with `first`.
pub(crate) fn note_limit(
    decisions: &mut Decisions,
    first: u32,
    names: &[Identifier],
) -> Result<(), AllocError>
    ensures { OnOk result (NotesLimit decisions.old decisions.new first names.now) }
{
    let mut number = first;
    for name in names {
        note_excess(decisions, number, name.pos)?;
        number = number_behind(number)?;
    }
    Ok(())
}

/// Declares a parameter under a name of the innermost region, with the next number.
fn add_object(
    alloc: Global,
    walk: &mut Walk,
    form: ParameterForm,
    name: &Identifier,
) -> Result<(), AllocError>
    ensures added { OnOk result (AddsObject walk.old walk.new form name.now) }
    ensures inside { OnOk result (GoesInside walk.old walk.new) }
{
    let number = walk.counts.object()?;
    let entity = form.entity(number);
    walk.symbols.redefine(alloc, name, entity)?;
    let word = Word {
        pos: name.pos,
        subtype: form.tree,
    };
    walk.found.add_word(word)?;
    Ok(())
}

/// Declares parameters under names of the innermost region, with the next numbers.
pub(crate) fn add_objects(
    alloc: Global,
    walk: &mut Walk,
    form: ParameterForm,
    names: &[Identifier],
) -> Result<(), AllocError>
    ensures added { OnOk result (AddsObjects walk.old walk.new form names.now) }
    ensures inside { OnOk result (IsWalkOpen walk.old → GoesInside walk.old walk.new) }
{
    for name in names {
        add_object(alloc, walk, form, name)?;
    }
    Ok(())
}

/// Adds parameters of one form under these names.
pub(crate) fn add_named(
    alloc: Global,
    parameters: &mut Vec<Parameter>,
    form: ParameterForm,
    names: &[Identifier],
) -> Result<(), AllocError>
    ensures { OnOk result (AddsNamed parameters.old.items parameters.new.items form names.now) }
{
    for name in names {
        let name = Bytes::from(key(alloc, name)?);
        parameters.push(Parameter {
            name,
            mode: form.mode,
            mark: form.marked.identity,
            subtype: form.marked.subtype,
        })?;
    }
    Ok(())
}
