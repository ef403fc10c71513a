//! Instances of generics (Ada RM 2012, 12.3).

ghost use Rattle.std.specs.Prelude.{IfOk, OnOk};
ghost use Rattle.ada_entities.specs.declared.units.Interface.TheVariants as interface;
ghost use Rattle.program_walk.specs.Changes.{ShowsUnit};
ghost use Rattle.program_walk.specs.Places.{ComesTo};
ghost use Rattle.unit_walk.specs.Instantiating.{instantiated_of, instance_part, AreFormalsOf, NotesMade, Makes, KeepsSymbols, SeesInstance};

use ada_demands::{Instances, Made, Statics};
use ada_entities::{Interface, Refusal, Region};
use ada_syntax::{Identifier, Instance};
use cov_base::{Failure, Pos};
use program_walk::{Notes, Place, Symbols, Walk};
use specifications::{InstanceActual, InstanceWalk, Lookup, generic_named, given_types};
use std::alloc::{AllocError, Global};

/// What an instance is one of, by the number of the generic's unit, where it is one; and what it has for
/// the formals, in order.
pub struct Instantiated {
    pub generic: Option<u32>,
    pub actuals: Vec<InstanceActual>,
}

// Written out: a derived drop is proved anew in each crate above.
impl Drop for Instantiated {
    fn drop(self) {
        let Instantiated {
            generic: _,
            actuals: _,
        } = self;
    }
}

/// The formals of a generic, if there is one.
fn formals_of(symbols: &Symbols, generic: Option<u32>) -> Option<&Region>
    ensures { AreFormalsOf symbols.now generic result }
{
    match generic {
        Some(unit) => symbols.formals_of(unit),
        None => None,
    }
}

/// The generic and the actuals of the instance with this number, whose text begins at this place
/// (RM 12.3). Refused at the rules' own place.
pub fn instance_actuals(
    alloc: Global,
    place: Place<'_>,
    notes: &mut Notes,
    number: u32,
    pos: Pos,
    instance: &Instance,
) -> Result<Instantiated, Failure<Refusal>>
    ensures { ComesTo instantiated_of place.entry notes.old notes.new
        (λ k env s. (instance_part env s pos number instance.now).answer) result }
{
    let generic = generic_named(alloc, &place.site, &instance.generic_name)?;
    let formals = formals_of(place.site.symbols, generic);
    let walk = InstanceWalk { place, number };
    let actuals = walk.actuals(alloc, notes, pos, formals, instance.actuals.as_slice())?;
    Ok(Instantiated { generic, actuals })
}

/// Notes that an instance was made, where it is one of a generic.
fn note_made(statics: &mut Statics, generic: Option<u32>, instance: u32) -> Result<(), AllocError>
    ensures { OnOk result (NotesMade statics.old generic instance statics.new) }
{
    match generic {
        Some(generic) => statics.instantiate(Made { generic, instance }),
        None => Ok(()),
    }
}

/// Makes the instance with this number and this name, whose text begins at this place: what it has is
/// known from here on, and the typed program has it.
pub fn make_instance(
    alloc: Global,
    instances: &mut Instances,
    walk: &mut Walk,
    number: u32,
    pos: Pos,
    name: &Identifier,
    made: &Instantiated,
) -> Result<(), AllocError>
    ensures made { OnOk result (Makes pos number name.now made.now walk.old instances.old walk.new instances.new) }
    ensures kept { OnOk result (KeepsSymbols walk.old walk.new) }
{
    let lookup = Lookup {
        symbols: &walk.symbols,
        instances,
        spans: &walk.spans,
    };
    let actuals = made.actuals.as_slice();
    let facts = lookup.facts(alloc, made.generic, actuals)?;
    let instance = lookup.instance(alloc, pos, name, made.generic, actuals)?;
    instances.make(alloc, &walk.notes.statics.constants, number, facts)?;
    walk.found.add_instance(instance)?;
    note_made(&mut walk.notes.statics, made.generic, number)
}

/// Lets other units see a made instance, which has this number in the text, as the unit with that
/// number. Instances are made in the order of dependence, each of them once.
pub fn show_instance(
    alloc: Global,
    symbols: &mut Symbols,
    unit: u32,
    number: u32,
    made: &Instantiated,
) -> Result<(), AllocError>
    ensures shown { OnOk result (SeesInstance symbols.old symbols.new unit made.now number) }
    ensures added { OnOk result (ShowsUnit symbols.old symbols.new unit (interface.Instance made.now.generic number)) }
{
    let types = given_types(alloc, made.actuals.as_slice())?;
    symbols.add_instance(number, types)?;
    symbols.set_unit(unit, Interface::Instance(made.generic, number))?;
    Ok(())
}
