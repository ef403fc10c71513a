//! Whether types are named where they stand (Ada RM 2012, 3.2, 12.3).

ghost use Rattle.std.specs.Prelude.{◌≡◌, ◌||◌, not, nat_eq, Some};
ghost use Rattle.std.specs.List.{list_all};
ghost use Rattle.std.specs.Option.{option_copied};
ghost use Rattle.ada_meaning.specs.Resolved as meaning;
ghost use Rattle.ada_tree.specs.View.{owner_of};
ghost use Rattle.lower.specs.Standing.{components_of};
ghost use Rattle.named_types.specs.Named as spec;

use crate::parameters::begin_with;
use ada_tree::{CompositeType, Instance, Owner, Program, Subprogram, Subtype, TypeDeclaration};

/// The instance whose entity a name denotes, where it stands in this one.
fn owner_in(inst: usize, owner: Owner) -> usize
    ensures { result ≡ meaning.owner_in inst (owner_of owner) }
{
    match owner {
        Owner::Here => inst,
        Owner::Instance(number) => number as usize,
    }
}

/// Whether an instance is one of this generic.
fn is_one_of(generic: u32, instance: Option<&Instance>) -> bool
    ensures { result ≡ spec.is_one_of generic (option_copied instance.entry) }
{
    match instance {
        Some(instance) => instance.generic == generic,
        None => false,
    }
}

/// Whether what stands in the text of this generic, or of none, stands in the instance with this number.
fn stands_in(program: &Program, generic: Option<u32>, inst: usize) -> bool
    ensures { result ≡ spec.stands_in program.now generic inst }
{
    let Some(generic) = generic else {
        return inst == 0;
    };
    let Some(place) = inst.checked_sub(1) else {
        return false;
    };
    is_one_of(generic, program.instances.as_slice().get(place))
}

/// Whether a type, where there is one, stands in the instance with this number.
fn type_stands_in(program: &Program, declared: Option<&TypeDeclaration>, inst: usize) -> bool
    ensures { result ≡ spec.type_stands_in program.now (option_copied declared.entry) inst }
{
    match declared {
        Some(declared) => stands_in(program, declared.generic, inst),
        None => false,
    }
}

/// Whether a text may name this type in an instance: a scalar one, or one below a number, in its owner's
/// instance.
fn is_named(program: &Program, inst: usize, below: usize, subtype: Subtype) -> bool
    ensures { result ≡ spec.is_named program.now inst below subtype }
{
    let Subtype::Composite(owner, number) = subtype else {
        return true;
    };
    let number = number as usize;
    let declared = program.types.as_slice().get(number);
    number < below && type_stands_in(program, declared, owner_in(inst, owner))
}

/// Whether a text may name all of these types in an instance.
fn are_named(program: &Program, inst: usize, below: usize, subtypes: &[Subtype]) -> bool
    ensures { result ≡ spec.are_named program.now inst below subtypes.now }
{
    subtypes
        .iter()
        .all(|subtype| is_named(program, inst, below, *subtype))
}

/// Whether a text of this generic may name all of these types in an instance, where that is one of it.
fn has_named(
    program: &Program,
    generic: u32,
    inst: usize,
    instance: &Instance,
    below: usize,
    subtypes: &[Subtype],
) -> bool
    ensures { result ≡ (not (nat_eq instance.now.generic generic) || spec.are_named program.now inst below subtypes.now) }
{
    instance.generic != generic || are_named(program, inst, below, subtypes)
}

/// Whether a text of this generic may name all of these types, in each of its instances.
fn are_named_in(program: &Program, generic: u32, below: usize, subtypes: &[Subtype]) -> bool
    ensures { result ≡ spec.are_named_by program.now (Some generic) below subtypes.now }
{
    for (place, instance) in program.instances.as_slice().iter().enumerate() {
        if !has_named(program, generic, place + 1, instance, below, subtypes) {
            return false;
        }
    }
    true
}

/// Whether a text of this generic, or of none, may name all of these types.
fn are_named_by(program: &Program, generic: Option<u32>, below: usize, subtypes: &[Subtype]) -> bool
    ensures { result ≡ spec.are_named_by program.now generic below subtypes.now }
{
    match generic {
        Some(generic) => are_named_in(program, generic, below, subtypes),
        None => are_named(program, 0, below, subtypes),
    }
}

/// Whether the type with this number is built of those before it.
fn is_built(program: &Program, number: usize, declared: &TypeDeclaration) -> bool
    ensures { result ≡ spec.are_named_by program.now declared.now.generic number
        (components_of declared.now.definition) }
{
    match &declared.definition {
        CompositeType::Array(_, component) => {
            are_named_by(program, declared.generic, number, &[*component])
        }
        CompositeType::Record(components) => {
            are_named_by(program, declared.generic, number, components.as_slice())
        }
    }
}

/// Whether each type is built of those before it.
fn are_built(program: &Program) -> bool
    ensures { result ≡ spec.are_built program.now 0 program.now.types }
{
    for (number, declared) in program.types.as_slice().iter().enumerate() {
        if !is_built(program, number, declared) {
            return false;
        }
    }
    true
}

/// Whether the objects of a subprogram are of types that its text may name, and begin with its
/// parameters.
fn has_named_objects(program: &Program, subprogram: &Subprogram) -> bool
    ensures { result ≡ spec.has_named_objects program.now subprogram.now }
{
    let objects = subprogram.objects.as_slice();
    are_named_by(program, subprogram.generic, program.types.len(), objects)
        && begin_with(subprogram.parameters.as_slice(), objects)
}

/// Whether this holds of all subprograms.
fn have_named_objects(program: &Program) -> bool
    ensures { result ≡ list_all (spec.has_named_objects program.now) program.now.subprograms }
{
    let subprograms = program.subprograms.as_slice();
    subprograms.iter().all(|s| has_named_objects(program, s))
}

/// Whether a program names its composite types where they stand, and the objects of its subprograms
/// begin with their parameters.
pub fn are_types_named(program: &Program) -> bool
    ensures { result ≡ spec.are_types_named program.now }
{
    are_built(program) && have_named_objects(program)
}
