//! The obligations, part by part.

ghost use Rattle.std.specs.Prelude.{◌≡◌, ◌++◌, [], ◌∷◌, map, IfOk, OnOk};
ghost use Rattle.ada_meaning.specs.Obligations.{in_order, instance_entry, no_instance, obligations_of};
ghost use Rattle.ada_tree.specs.Programs.{instance_of, program_of};
ghost use Rattle.obligations.specs.Entries.{of_subprograms, predefined};
ghost use Rattle.obligations.specs.Exceptions.{is_before, of_declarations};

use crate::exceptions::{NamedException, declared, sort_exceptions};
use crate::listing::Listing;
use crate::ordered::{sort_decisions, sort_statements};
use crate::statements::add_block;
use ada_tree::{Instance, Program, Subprogram};
use cov_base::{Bytes, ExceptionName, InstanceEntry, Obligations, Seq};
use std::alloc::{AllocError, Global};

/// The exceptions that each program has, by their full names (Ada RM 2012, 11.1; A.13 for the last).
const PREDEFINED: [&str; 4] = [
    "constraint_error",
    "program_error",
    "storage_error",
    "test_io.end_error",
];

/// The entries of subprograms, in their order.
fn entries(alloc: Global, subprograms: &[Subprogram]) -> Result<Listing, AllocError>
    ensures { IfOk result (λ l. l ≡ of_subprograms subprograms.now) }
{
    let mut listing = Listing::new(alloc);
    for subprogram in subprograms {
        add_block(&mut listing, &subprogram.body)?;
    }
    Ok(listing)
}

/// The entry of an instance.
fn instance_entry(alloc: Global, instance: &Instance) -> Result<InstanceEntry, AllocError>
    ensures { IfOk result (λ e. e ≡ instance_entry (instance_of instance.now)) }
{
    let name = Vec::from_slice(alloc, instance.name.as_slice())?;
    Ok(InstanceEntry {
        name: Bytes::from(name),
        file: instance.place.file,
        line: instance.place.line,
        column: instance.place.col,
    })
}

/// The entries of the instances, behind that of all that stands in no generic.
fn instance_entries(alloc: Global, instances: &[Instance]) -> Result<Vec<InstanceEntry>, AllocError>
    ensures { IfOk result (λ entries. entries.items ≡ no_instance ∷ map instance_entry (map instance_of instances.now)) }
{
    let name = Bytes::from(Vec::new(alloc));
    let mut entries = vec![in alloc;
        InstanceEntry {
            name,
            file: 0,
            line: 0,
            column: 0
        },
    ]?;
    for instance in instances {
        entries.push(instance_entry(alloc, instance)?)?;
    }
    Ok(entries)
}

/// The exceptions of the language itself.
#[tactic(auto, unfolding(crate::specs::Entries::predefined))]
fn predefined(alloc: Global) -> Result<Vec<ExceptionName>, AllocError>
    ensures { IfOk result (λ names. names.items ≡ predefined) }
{
    let [constraint, program, storage, end] = PREDEFINED;
    Ok(vec![in alloc;
        exception(alloc, constraint)?,
        exception(alloc, program)?,
        exception(alloc, storage)?,
        exception(alloc, end)?,
    ]?)
}

/// An exception of a name.
fn exception(alloc: Global, name: &str) -> Result<ExceptionName, AllocError>
    ensures { IfOk result (λ text. text ≡ name.now) }
{
    Ok(Bytes::from(Vec::from_slice(alloc, name.as_bytes())?))
}

/// Adds the names of exceptions, in their order.
fn push_names(
    alloc: Global,
    names: &mut Vec<ExceptionName>,
    exceptions: &[NamedException],
) -> Result<(), AllocError>
    ensures { OnOk result (names.new.items ≡ names.old.items ++ map (λ x. x.name) exceptions.now) }
{
    for exception in exceptions {
        let name = Vec::from_slice(alloc, exception.name.as_slice())?;
        names.push(Bytes::from(name))?;
    }
    Ok(())
}

/// The exceptions of a program: those of the language itself, and the declared ones in their order.
fn exceptions(alloc: Global, program: &Program) -> Result<Vec<ExceptionName>, AllocError>
    ensures { IfOk result (λ names. names.items ≡ predefined ++ map (λ x. x.name) (in_order is_before (of_declarations program.now.declared program.now.instances))) }
{
    let declarations = program.declared.as_slice();
    let instances = program.instances.as_slice();
    let mut named = declared(alloc, declarations, instances)?;
    sort_exceptions(&mut named)?;
    let mut names = predefined(alloc)?;
    push_names(alloc, &mut names, named.as_slice())?;
    Ok(names)
}

/// What coverage has to show of a program, without its exempt regions: that each statement is
/// executed, also one after a return, and each declaration that gives an initial value; and that each
/// decision gives both outcomes, where it stands after `if`, `elsif`, `while` and `exit when`, and where
/// it is any other expression with `and then` or `or else` (Ada RM 2012, 3.3.1, 4.5.1, 5.1, 5.3, 5.5,
/// 5.7). All stand in the order of their places. The text of a generic counts once, also where it has no
/// instance; its exceptions count once for each (RM 12.3).
pub fn obligations(alloc: Global, program: &Program) -> Result<Obligations, AllocError>
    ensures { IfOk result (λ o. o ≡ obligations_of (program_of program.now) []) }
{
    let listing = entries(alloc, program.subprograms.as_slice())?;
    let (mut statements, mut decisions) = listing.into_parts();
    sort_statements(&mut statements)?;
    sort_decisions(&mut decisions)?;
    let instances = instance_entries(alloc, program.instances.as_slice())?;
    let exceptions = exceptions(alloc, program)?;
    Ok(Obligations {
        statements: Seq::from(statements),
        decisions: Seq::from(decisions),
        regions: Seq::from(Vec::new(alloc)),
        instances: Seq::from(instances),
        exceptions: Seq::from(exceptions),
    })
}
