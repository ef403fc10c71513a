//! Where the objects of the library level pass their limit (Ada RM 2012, 1.1.3, 7.1, 12.3).

ghost use Rattle.std.specs.Prelude.{◌≡◌, ℕ, List, IfOk, map, reverse};
ghost use Rattle.ada_rules.specs.Entities.{Actual};
ghost use Rattle.ada_rules.specs.Environment as environment;
ghost use Rattle.ada_rules.specs.Environment.{World, instance_interface};
ghost use Rattle.ada_rules.specs.Limits as rules;
ghost use Rattle.ada_tree.specs.Programs.{types_of};
ghost use Rattle.ada_entities.specs.EntityViews.{Tables};
ghost use Rattle.ada_entities.specs.UnitViews.{interface_of};
ghost use Rattle.word_limits.specs.Capped.{capped};
ghost use Rattle.word_limits.specs.Counting.{subtype_by, unit_by};
ghost use Rattle.word_limits.specs.Excess.{IsFirstUnit};

use crate::capped::{sum, sum_within};
use crate::limit::Limit;
use crate::words::WordTable;
use ada_entities::Interface;
use ada_syntax::Unit;
use ada_tree::Subtype;
use cov_base::{Pos, numbered};
use program_walk::{Symbols, UnitWords};
use std::alloc::{AllocError, Global};

/// How many words objects of these subtypes take in an instance.
fn sum_in(table: &WordTable<'_>, instance: u32, subtypes: &[Subtype]) -> Result<u32, AllocError>
    ensures { IfOk result (λ w. w ≡ capped (rules.sum_in table.now.instances.now instance
        (reverse (map (subtype_by (types_of table.now.types.now)) subtypes.now)))) }
{
    let mut words = 0;
    for subtype in subtypes {
        words = sum(table.words(instance, *subtype)?, words);
    }
    Ok(words)
}

/// How many words the text of a generic takes in an instance of it.
fn words_of_generic(
    table: &WordTable<'_>,
    instance: u32,
    generic: u32,
    units: &[UnitWords],
) -> Result<u32, AllocError>
    ensures { IfOk result (λ w. w ≡ capped (rules.words_of_generic table.now.instances.now instance generic
        (reverse (map (unit_by (types_of table.now.types.now)) units.now)))) }
{
    let mut words = 0;
    for unit in units {
        if unit.package_unit == generic {
            words = sum(sum_in(table, instance, unit.words.as_slice())?, words);
        }
    }
    Ok(words)
}

/// How many words the text of a unit takes by itself: none in a generic.
fn own_words(table: &WordTable<'_>, unit: &UnitWords) -> Result<u32, AllocError>
    ensures { IfOk result (λ w. w ≡ capped (rules.own_words table.now.instances.now unit.now.generic
        (reverse (map (subtype_by (types_of table.now.types.now)) unit.now.words.items)))) }
{
    match unit.generic {
        None => sum_in(table, 0, unit.words.as_slice()),
        Some(_) => Ok(0),
    }
}

/// How many words the text of the unit with this number takes, if it is no generic.
fn words_of_unit(table: &WordTable<'_>, number: u32, units: &[UnitWords]) -> Result<u32, AllocError>
    ensures { IfOk result (λ w. w ≡ capped (rules.words_of_unit table.now.instances.now number
        (reverse (map (unit_by (types_of table.now.types.now)) units.now)))) }
{
    let mut words = 0;
    for unit in units {
        if unit.unit == number {
            words = sum(own_words(table, unit)?, words);
        }
    }
    Ok(words)
}

/// How many words a unit takes that is an instance: those of its generic's text.
fn words_of_instance(
    table: &WordTable<'_>,
    number: u32,
    generic: Option<u32>,
    instance: u32,
    units: &[UnitWords],
) -> Result<u32, AllocError>
    ensures { (actuals : List Actual) → IfOk result (λ w. w ≡ capped (rules.words_by table.now.instances.now number
        (instance_interface generic instance actuals)
        (reverse (map (unit_by (types_of table.now.types.now)) units.now)))) }
{
    match generic {
        Some(generic) => words_of_generic(table, instance, generic, units),
        None => words_of_unit(table, number, units),
    }
}

/// How many words a unit takes, by what other units see of it.
fn words_by(
    table: &WordTable<'_>,
    number: u32,
    interface: &Interface,
    units: &[UnitWords],
) -> Result<u32, AllocError>
    ensures { (k : Tables) (actuals : ℕ → List Actual) → IfOk result (λ w. w
        ≡ capped (rules.words_by table.now.instances.now number (interface_of k actuals interface.now)
        (reverse (map (unit_by (types_of table.now.types.now)) units.now)))) }
{
    match interface {
        Interface::Instance(generic, instance) => {
            words_of_instance(table, number, *generic, *instance, units)
        }
        Interface::Unknown
        | Interface::Package(_)
        | Interface::Generic(_, _)
        | Interface::Subprogram(_) => words_of_unit(table, number, units),
    }
}

/// How many words the unit with this number takes.
fn words_at(
    table: &WordTable<'_>,
    symbols: &Symbols,
    number: u32,
    units: &[UnitWords],
) -> Result<u32, AllocError>
    ensures { (k : Tables) (actuals : ℕ → List Actual) (w : World)
        → w.interfaces ≡ map (interface_of k actuals) symbols.now.units
        → IfOk result (λ x. x
        ≡ capped (rules.words_by table.now.instances.now number (environment.interface_of w number)
        (reverse (map (unit_by (types_of table.now.types.now)) units.now)))) }
{
    match symbols.interface(number) {
        Some(interface) => words_by(table, number, interface, units),
        None => words_of_unit(table, number, units),
    }
}

/// The first unit at which the objects of the library level pass their limit.
pub(crate) fn first_unit(
    table: &WordTable<'_>,
    symbols: &Symbols,
    found: &[UnitWords],
    units: &[Unit],
) -> Result<Option<Pos>, AllocError>
    ensures { IfOk result (IsFirstUnit table.now.instances.now (types_of table.now.types.now)
        symbols.now.units found.now units.now) }
{
    let mut before = 0;
    for (index, unit) in units.iter().enumerate() {
        let more = words_at(table, symbols, numbered(index)?, found)?;
        match sum_within(Limit::Library.most(), before, more) {
            Some(all) => before = all,
            None => return Ok(Some(unit.pos)),
        }
    }
    Ok(None)
}
