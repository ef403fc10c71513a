//! The exceptions of a program in their order (Ada RM 2012, 11.1, 12.3).

ghost use Rattle.std.specs.Prelude.{◌≡◌, ◌≤◌, ◌+◌, ◌^◌, ◌++◌, map, IfOk, IfErr, OnOk};
ghost use Rattle.ada_meaning.specs.Obligations.{in_order, is_listed_before};
ghost use Rattle.ada_meaning.specs.Obligations as meaning;
ghost use Rattle.ada_tree.specs.Programs.{exception_declaration_of, instance_of, raisable_of};
ghost use Rattle.typed_program.specs.Exceptions.{entry_of, in_one, is_before, raised};

use ada_tree::{ExceptionDeclaration, Instance, Raisable};
use cov_base::{Pos, Seq, number_behind, numbered};
use std::alloc::{AllocError, Global};

/// An exception with its place in the order: that of its instance, and among those of one instance that
/// of its declaration. One in no generic has the place of its declaration.
#[derive(Clone, Copy)]
pub(crate) struct Listed {
    pub outer: Pos,
    pub inner: Pos,
    pub entry: Raisable,
}

/// Adds an exception that is declared in a generic, where the instance with this number is one of it.
fn push_in(
    listed: &mut Vec<Listed>,
    declaration: &ExceptionDeclaration,
    generic: u32,
    number: u32,
    instance: &Instance,
) -> Result<(), AllocError>
    ensures { OnOk result (listed.new.items
        ≡ listed.old.items ++ in_one declaration.now generic number instance.now) }
{
    if instance.generic != generic {
        return Ok(());
    }
    listed.push(Listed {
        outer: instance.place,
        inner: declaration.place,
        entry: Raisable {
            instance: number,
            declaration: declaration.declaration,
        },
    })?;
    Ok(())
}

/// The number of the instance at a place; instances are numbered from 1.
fn number_at(index: usize) -> Result<u32, AllocError>
    ensures number { IfOk result (λ n. n ≡ index + 1) }
    ensures refused { IfErr result (λ e. 2 ^ 32 ≤ index + 1) }
{
    number_behind(numbered(index)?)
}

/// Adds one for each instance of the generic.
fn push_in_each(
    listed: &mut Vec<Listed>,
    declaration: &ExceptionDeclaration,
    generic: u32,
    instances: &[Instance],
) -> Result<(), AllocError>
    ensures { OnOk result (listed.new.items ≡ listed.old.items
        ++ map entry_of (meaning.listed_for (exception_declaration_of declaration.now) generic 1 (map instance_of instances.now))) }
{
    for (index, instance) in instances.iter().enumerate() {
        push_in(listed, declaration, generic, number_at(index)?, instance)?;
    }
    Ok(())
}

/// Adds the exceptions of a declaration, by the generic that it stands in.
fn push_declared(
    listed: &mut Vec<Listed>,
    declaration: &ExceptionDeclaration,
    instances: &[Instance],
) -> Result<(), AllocError>
    ensures { OnOk result (listed.new.items ≡ listed.old.items
        ++ map entry_of (meaning.listed_by declaration.now.generic (exception_declaration_of declaration.now) (map instance_of instances.now))) }
{
    match declaration.generic {
        None => {
            listed.push(Listed {
                outer: declaration.place,
                inner: declaration.place,
                entry: Raisable {
                    instance: 0,
                    declaration: declaration.declaration,
                },
            })?;
            Ok(())
        }
        Some(generic) => push_in_each(listed, declaration, generic, instances),
    }
}

/// The exceptions of declarations, in the order of these.
fn all_listed(
    alloc: Global,
    declared: &[ExceptionDeclaration],
    instances: &[Instance],
) -> Result<Vec<Listed>, AllocError>
    ensures { IfOk result (λ xs. xs.items
        ≡ map entry_of (meaning.listed (map exception_declaration_of declared.now) (map instance_of instances.now))) }
{
    let mut listed = Vec::new(alloc);
    for declaration in declared {
        push_declared(&mut listed, declaration, instances)?;
    }
    Ok(listed)
}

/// Puts exceptions in the order of their places.
fn sort(listed: &mut Vec<Listed>) -> Result<(), AllocError>
    ensures { OnOk result (listed.new.items ≡ in_order is_before listed.old.items) }
{
    listed.sort_by_key(|exception| (exception.outer, exception.inner))
}

/// The exceptions of a program, which it is numbered by: one for each declaration, and in a generic one
/// for each instance.
pub(crate) fn ordered(
    alloc: Global,
    declared: &[ExceptionDeclaration],
    instances: &[Instance],
) -> Result<Seq<Raisable>, AllocError>
    ensures { IfOk result (λ es. map raisable_of es
        ≡ raised (map exception_declaration_of declared.now) (map instance_of instances.now)) }
{
    let mut listed = all_listed(alloc, declared, instances)?;
    sort(&mut listed)?;
    let mut entries = Vec::new(alloc);
    for exception in listed.as_slice() {
        entries.push(exception.entry)?;
    }
    Ok(Seq::from(entries))
}
