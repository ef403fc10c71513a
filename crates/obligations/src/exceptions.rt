//! The exceptions of a program, by their full names.

ghost use Rattle.std.specs.Prelude.{◌≡◌, ◌++◌, [], map, IfOk, OnOk, Option};
ghost use Rattle.ada_meaning.specs.Obligations.{in_order};
ghost use Rattle.obligations.specs.Exceptions as spec;
ghost use Rattle.obligations.specs.Exceptions.{is_before};

use ada_tree::{ExceptionDeclaration, Instance};
use cov_base::{Bytes, Pos};
use std::alloc::{AllocError, Global};

/// Where an exception stands in the order of exceptions: at the place of its instance, and among those of
/// one instance at the place of its declaration. One in no generic has the place of its declaration.
#[derive(Clone, Copy, PartialEq, Eq, PartialOrd, Ord)]
pub(crate) struct ExceptionPlace {
    pub outer: Pos,
    pub inner: Pos,
}

/// A declared exception, by its full name in lower case.
pub(crate) struct NamedException {
    pub place: ExceptionPlace,
    pub name: Bytes,
}

// Written out: a derived drop is proved anew in each crate above.
impl Drop for NamedException {
    fn drop(self) {
        let NamedException { place: _, name: _ } = self;
    }
}

/// A unit's name, a point, and the name of what is declared in the unit.
fn full_name(alloc: Global, unit: &[u8], name: &[u8]) -> Result<Bytes, AllocError>
    ensures { IfOk result (λ text. text ≡ spec.full_name unit.now name.now) }
{
    let mut text = Vec::from_slice(alloc, unit)?;
    text.push(b'.')?;
    text.extend_from_slice(name)?;
    Ok(Bytes::from(text))
}

/// Adds an exception that is declared in no generic.
fn push_once(
    alloc: Global,
    named: &mut Vec<NamedException>,
    declaration: &ExceptionDeclaration,
) -> Result<(), AllocError>
    ensures { OnOk result (named.new.items ≡ named.old.items ++ spec.once declaration.now) }
{
    let name = full_name(
        alloc,
        declaration.unit.as_slice(),
        declaration.name.as_slice(),
    )?;
    let place = ExceptionPlace {
        outer: declaration.place,
        inner: declaration.place,
    };
    named.push(NamedException { place, name })?;
    Ok(())
}

/// Adds an exception that is declared in a generic, where this is an instance of the generic.
fn push_in(
    alloc: Global,
    named: &mut Vec<NamedException>,
    declaration: &ExceptionDeclaration,
    generic: u32,
    instance: &Instance,
) -> Result<(), AllocError>
    ensures { OnOk result (named.new.items ≡ named.old.items ++ spec.in_instance declaration.now generic instance.now) }
{
    if instance.generic != generic {
        return Ok(());
    }
    let name = full_name(alloc, instance.name.as_slice(), declaration.name.as_slice())?;
    let place = ExceptionPlace {
        outer: instance.place,
        inner: declaration.place,
    };
    named.push(NamedException { place, name })?;
    Ok(())
}

/// Adds one for each instance of the generic.
fn push_in_each(
    alloc: Global,
    named: &mut Vec<NamedException>,
    declaration: &ExceptionDeclaration,
    generic: u32,
    instances: &[Instance],
) -> Result<(), AllocError>
    ensures { OnOk result (named.new.items ≡ named.old.items ++ spec.in_instances declaration.now generic instances.now) }
{
    for instance in instances {
        push_in(alloc, named, declaration, generic, instance)?;
    }
    Ok(())
}

/// Adds the exceptions of a declaration, by the generic that it stands in.
fn push_declared(
    alloc: Global,
    named: &mut Vec<NamedException>,
    declaration: &ExceptionDeclaration,
    instances: &[Instance],
) -> Result<(), AllocError>
    ensures { OnOk result (named.new.items ≡ named.old.items ++ spec.of_declaration declaration.now.generic declaration.now instances.now) }
{
    match declaration.generic {
        None => push_once(alloc, named, declaration),
        Some(generic) => push_in_each(alloc, named, declaration, generic, instances),
    }
}

/// The declared exceptions of a program, in the order of their declarations.
pub(crate) fn declared(
    alloc: Global,
    declared: &[ExceptionDeclaration],
    instances: &[Instance],
) -> Result<Vec<NamedException>, AllocError>
    ensures { IfOk result (λ named. named.items ≡ spec.of_declarations declared.now instances.now) }
{
    let mut named = Vec::new(alloc);
    for declaration in declared {
        push_declared(alloc, &mut named, declaration, instances)?;
    }
    Ok(named)
}

/// Puts exceptions in the order of their places.
pub(crate) fn sort_exceptions(named: &mut Vec<NamedException>) -> Result<(), AllocError>
    ensures { OnOk result (named.new.items ≡ in_order is_before named.old.items) }
{
    named.sort_by_key(|exception| exception.place)
}
