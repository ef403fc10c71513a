//! The table of types: a row for each, by those before it (Ada RM 2012, 3.2, 12.3).

ghost use Rattle.std.specs.Prelude.{◌≡◌, ◌≤◌, ◌+◌, ◌^◌, ◌++◌, List, IfOk, IfErr, OnOk};
ghost use Rattle.ada_meaning.specs.Types as type;
ghost use Rattle.ada_rules.specs.Limits.{words_in};
ghost use Rattle.ada_rules.specs.Statics as rules;
ghost use Rattle.ada_tree.specs.Programs.{types_of, unfolded};
ghost use Rattle.ada_tree.specs.View.{composite_of};
ghost use Rattle.word_limits.specs.Capped.{capped};
ghost use Rattle.word_limits.specs.Places.{place_in};
ghost use Rattle.word_limits.specs.Rows.{AreEntries, AreRows, IsRow};

use crate::ranges::Scope;
use crate::rows::{Entry, Row, composite_words};
use ada_demands::{Facts, Instances};
use ada_tree::{CompositeType, TypeDeclaration};
use cov_base::{Seq, number_behind, numbered};
use std::alloc::{AllocError, Global};

/// The number of the instance at a place; instances are numbered from 1.
fn number_at(index: usize) -> Result<u32, AllocError>
    ensures number { IfOk result (λ n. n ≡ index + 1) }
    ensures refused { IfErr result (λ e. 2 ^ 32 ≤ index + 1) }
{
    number_behind(numbered(index)?)
}

/// Adds the number of an instance, where it is one of this generic.
fn push_place(
    places: &mut Vec<u32>,
    facts: &Facts,
    generic: u32,
    number: u32,
) -> Result<(), AllocError>
    ensures { OnOk result (places.new.items ≡ places.old.items ++ place_in generic number facts.now) }
{
    if facts.generic != generic {
        return Ok(());
    }
    places.push(number)?;
    Ok(())
}

/// The instances of a generic, in order.
fn instances_of(alloc: Global, instances: &Instances, generic: u32) -> Result<Vec<u32>, AllocError>
    ensures { IfOk result (λ ps. ps.items ≡ rules.instances_from instances.now 1 generic instances.now) }
{
    let mut places = Vec::new(alloc);
    for (index, facts) in instances.as_slice().iter().enumerate() {
        push_place(&mut places, facts, generic, number_at(index)?)?;
    }
    Ok(places)
}

/// The instances in which what stands in this generic is looked at; instance 0 for what stands in none.
pub(crate) fn places_of(
    alloc: Global,
    instances: &Instances,
    generic: Option<u32>,
) -> Result<Vec<u32>, AllocError>
    ensures { IfOk result (λ ps. ps.items ≡ rules.places_of instances.now generic) }
{
    if let Some(generic) = generic {
        return instances_of(alloc, instances, generic);
    }
    let mut places = Vec::new(alloc);
    places.push(0)?;
    Ok(places)
}

/// How many words a type takes in an instance; where that is not known there is no memory.
fn entry_of(
    instances: &Instances,
    rows: &[Row],
    instance: u32,
    composite: &CompositeType,
) -> Result<Entry, AllocError>
    ensures { IfOk result (λ e. (ts : List type.Subtype) → AreRows instances.now ts rows.now
        → e.words ≡ capped (words_in instances.now e.instance (unfolded ts (composite_of composite.now)))) }
{
    match composite_words(instances, rows, Scope::Instance(instance), composite) {
        Some(words) => Ok(Entry { instance, words }),
        None => Err(AllocError),
    }
}

/// The entries of a type for these instances.
fn entries_of(
    alloc: Global,
    instances: &Instances,
    rows: &[Row],
    places: &[u32],
    composite: &CompositeType,
) -> Result<Vec<Entry>, AllocError>
    ensures { IfOk result (λ es. (ts : List type.Subtype) → AreRows instances.now ts rows.now
        → AreEntries instances.now (unfolded ts (composite_of composite.now)) es.items) }
{
    let mut entries = Vec::new(alloc);
    for instance in places {
        entries.push(entry_of(instances, rows, *instance, composite)?)?;
    }
    Ok(entries)
}

/// The row of a type, by the table so far.
fn row_of(
    alloc: Global,
    instances: &Instances,
    rows: &[Row],
    declaration: &TypeDeclaration,
) -> Result<Row, AllocError>
    ensures { IfOk result (λ r. (ts : List type.Subtype) → AreRows instances.now ts rows.now
        → IsRow instances.now (unfolded ts (composite_of declaration.now.definition)) r) }
{
    let composite = &declaration.definition;
    if let Some(words) = composite_words(instances, rows, Scope::Everywhere, composite) {
        return Ok(Row::Everywhere(words));
    }
    let places = places_of(alloc, instances, declaration.generic)?;
    let entries = entries_of(alloc, instances, rows, places.as_slice(), composite)?;
    Ok(Row::ByInstance(Seq::from(entries)))
}

/// The rows of these types.
pub(crate) fn table_of(
    alloc: Global,
    types: &[TypeDeclaration],
    instances: &Instances,
) -> Result<Vec<Row>, AllocError>
    ensures { IfOk result (λ rows. AreRows instances.now (types_of types.now) rows.items) }
{
    let mut rows = Vec::new(alloc);
    for declaration in types {
        let row = row_of(alloc, instances, rows.as_slice(), declaration)?;
        rows.push(row)?;
    }
    Ok(rows)
}
