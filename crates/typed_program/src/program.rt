//! The typed program (Ada RM 2012, 10.1).

ghost use Rattle.std.specs.Prelude.{◌≡◌, IfOk};
ghost use Rattle.ada_tree.specs.Programs.{program_of};
ghost use Rattle.typed_program.specs.Assembled.{assembled, HasTypes, IsProgramOf};

use crate::exceptions::ordered;
use crate::instances::completed;
use ada_demands::{Instances, Statics};
use ada_entities::type_declarations;
use ada_library::Library;
use ada_tree::{GenericConstant, Program, TypeDeclaration, UnitEntry};
use cov_base::Seq;
use program_walk::{Found, Notes, Walk};
use std::alloc::{AllocError, Global};

/// What the typed program has beside what the walk has found.
#[derive(Drop)]
struct Outline {
    main: u32,
    types: Seq<TypeDeclaration>,
    constants: Vec<GenericConstant>,
    units: Vec<UnitEntry>,
}

/// The typed program of what was found, with what instances have.
fn assembled(
    alloc: Global,
    outline: Outline,
    instances: &Instances,
    found: Found,
) -> Result<Program, AllocError>
    ensures program { IfOk result (λ p. program_of p ≡ assembled outline instances.now found) }
    ensures types { IfOk result (λ p. p.types ≡ outline.types) }
    ensures units { IfOk result (λ p. p.units ≡ outline.units.items) }
{
    let Found {
        objects,
        exceptions,
        instances: made,
        subprograms,
        ..
    } = found;
    let made = completed(alloc, made, instances)?;
    let raised = ordered(alloc, exceptions.as_slice(), made.as_slice())?;
    Ok(Program {
        subprograms: Seq::from(subprograms),
        main: outline.main,
        types: outline.types,
        objects: Seq::from(objects),
        constants: Seq::from(outline.constants),
        instances: made,
        declared: Seq::from(exceptions),
        exceptions: raised,
        units: Seq::from(outline.units),
    })
}

/// The typed program that a walk over these units has found, whose main procedure has this name in lower
/// case: with what instances have, the values of all constants among it, and with what the limits ask of
/// the units. Composite types stand in the texts of these generics.
pub fn program_of(
    alloc: Global,
    library: &Library,
    instances: &Instances,
    generics: &[Option<u32>],
    units: Vec<UnitEntry>,
    main: &[u8],
    walk: Walk,
) -> Result<Program, AllocError>
    ensures program { IfOk result (IsProgramOf library.now instances.now walk main.now) }
    ensures types { IfOk result (HasTypes generics.now walk) }
    ensures units { IfOk result (λ p. p.units ≡ units.items) }
{
    let main = library.body_number(alloc, main, main)?.unwrap_or(0);
    let Walk {
        symbols,
        notes,
        found,
        ..
    } = walk;
    let Notes { statics, .. } = notes;
    let Statics { constants, .. } = statics;
    let outline = Outline {
        main,
        types: type_declarations(alloc, symbols.types(), generics)?,
        constants: constants.into_declared(),
        units,
    };
    assembled(alloc, outline, instances, found)
}

/// Gives back the memory of a program, for who keeps it no longer. What it takes to drop a tree is proved
/// anew in each crate that drops one, and this crate does it for those above.
pub fn discard_program(program: Program) {
    drop(program);
}
