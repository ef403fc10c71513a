//! Static expressions, ranges, constants and types in an instance of a generic.
//!
//! | Line | Asks |
//! |---|---|
//! | `generic OBJECT FIRST LAST COUNT` | what they come to in the instance, and what in no generic |
//!
//! The instance has OBJECT for the formal object, and the range from FIRST to LAST for the formal type. The
//! sizes of its types are asked for a second time from outside.
//!
//! The generic has COUNT constants, of which each is twice the one before, and the first twice the formal
//! object; an array of integers over the formal type; and COUNT records, each of two of the type before.
//! One object of the array's type is declared in the generic, one integer in no generic, and the words of
//! both are told, by instance and in all.

use crate::reply::Reply;
use crate::words::{capped, integer, split_word};
use ada_resolved::{TypeSizes, bounds_in, constants_in, number_in};
use ada_tree::{
    CompositeType, FormalActual, GenericConstant, Initial, Instance, LibraryObject, Operator,
    Owner, Program, Range, ScalarRange, Static, StaticValue, Subtype, TypeDeclaration,
};
use cov_base::{Bytes, Pos, Seq};
use std::alloc::Global;
use typed_program::discard_program;

const INTEGER: ScalarRange = ScalarRange::Known(Range {
    first: i32::MIN,
    last: i32::MAX,
});

/// The formal object.
const OBJECT: StaticValue = StaticValue::Formal(0);

/// The values of the formal type.
const TYPE: ScalarRange = ScalarRange::Formal(Owner::Here, 1);

/// The formal object, doubled by so many constants.
fn doublings(alloc: Global, out: &mut Reply, count: u32) -> Vec<GenericConstant> {
    let mut constants = Vec::new(alloc);
    for place in 0..count {
        let before = match place.checked_sub(1) {
            None => OBJECT,
            Some(place) => StaticValue::Constant(place),
        };
        out.note(constants.push(GenericConstant {
            generic: 0,
            value: Static::Operation(Operator::Add, before, before),
            range: INTEGER,
        }));
    }
    constants
}

/// The declaration of a composite type in the generic.
fn declared(definition: CompositeType) -> TypeDeclaration {
    TypeDeclaration {
        generic: Some(0),
        definition,
    }
}

/// A record of two of the type with this number.
fn twice(alloc: Global, out: &mut Reply, number: u32) -> CompositeType {
    let mut parts = Vec::new(alloc);
    let part = Subtype::Composite(Owner::Here, number);
    out.note(parts.extend_from_slice(&[part, part]));
    CompositeType::Record(Seq::from(parts))
}

/// An array over the formal type, doubled by so many records.
fn types(alloc: Global, out: &mut Reply, count: u32) -> Vec<TypeDeclaration> {
    let mut types = Vec::new(alloc);
    let array = CompositeType::Array(TYPE, Subtype::Scalar(INTEGER));
    out.note(types.push(declared(array)));
    for number in 0..count {
        let record = twice(alloc, out, number);
        out.note(types.push(declared(record)));
    }
    types
}

/// An object that is declared in a package of this generic.
fn object(declaration: u32, generic: Option<u32>, subtype: Subtype) -> LibraryObject {
    LibraryObject {
        declaration,
        generic,
        subtype,
        initial: Initial::None,
    }
}

/// An object of the array's type in the generic, and an integer in no generic.
fn objects(alloc: Global, out: &mut Reply) -> Vec<LibraryObject> {
    let array = Subtype::Composite(Owner::Here, 0);
    let integer = Subtype::Scalar(INTEGER);
    let mut objects = Vec::new(alloc);
    out.note(objects.push(object(0, Some(0), array)));
    out.note(objects.push(object(1, None, integer)));
    objects
}

/// The instance that has this object and this range.
fn instance(alloc: Global, out: &mut Reply, object: i32, range: Range) -> Instance {
    let value = Static::Value(Owner::Here, StaticValue::Number(object));
    let mut actuals = Vec::new(alloc);
    out.note(actuals.push(FormalActual::Object(value, object)));
    out.note(actuals.push(FormalActual::Type(ScalarRange::Known(range), range, range)));
    Instance {
        name: Bytes::from(Vec::new(alloc)),
        place: Pos {
            file: 0,
            line: 1,
            col: 1,
        },
        generic: 0,
        actuals: Seq::from(actuals),
        constants: Seq::from(Vec::new(alloc)),
    }
}

/// The program of the generic and its instance.
fn program(alloc: Global, out: &mut Reply, object: i32, range: Range, count: u32) -> Program {
    let mut instances = Vec::new(alloc);
    let instance = instance(alloc, out, object, range);
    out.note(instances.push(instance));
    Program {
        subprograms: Seq::from(Vec::new(alloc)),
        main: 0,
        types: Seq::from(types(alloc, out, count)),
        objects: Seq::from(objects(alloc, out)),
        constants: Seq::from(doublings(alloc, out, count)),
        instances: Seq::from(instances),
        declared: Seq::from(Vec::new(alloc)),
        exceptions: Seq::from(Vec::new(alloc)),
        units: Seq::from(Vec::new(alloc)),
    }
}

/// Puts a number, or that there is none.
fn put_number(out: &mut Reply, number: Option<i64>) {
    match number {
        Some(number) => out.put(format_args!(" {number}")),
        None => out.put(" none"),
    }
}

/// Puts what the formals are in an instance.
fn put_formals(out: &mut Reply, program: &Program, instance: u32) {
    let object = number_in(program, instance, Static::Value(Owner::Here, OBJECT));
    let length = number_in(program, instance, Static::Length(TYPE));
    out.put(format_args!("in {instance}: object"));
    put_number(out, object.map(i64::from));
    out.put(", length");
    put_number(out, length.map(i64::from));
    match bounds_in(program, instance, TYPE) {
        Some(Range { first, last }) => out.put(format_args!(", range {first} to {last}\n")),
        None => out.put(", no range\n"),
    }
}

/// Puts the values of the constants in the instance.
fn put_constants(alloc: Global, out: &mut Reply, program: &Program) {
    match constants_in(alloc, program, 1, 0) {
        Ok(values) => {
            out.put("constants:");
            for value in values.as_slice() {
                put_number(out, value.map(i64::from));
            }
            out.put("\n");
        }
        Err(_) => out.lack_memory(),
    }
}

/// Puts the sizes of so many types of an owner, seen from an instance.
fn put_sizes(out: &mut Reply, sizes: &TypeSizes<'_>, instance: u32, owner: Owner, count: u32) {
    out.put(format_args!("sizes in {instance}:"));
    for number in 0..count {
        let size = sizes.size_in(instance, Subtype::Composite(owner, number));
        put_number(out, size.map(i64::from));
    }
    out.put("\n");
}

/// Puts the sizes of so many types, in the instance, in no generic, and in the instance from outside; and
/// how many words objects take in the instance, in no generic, and in all.
fn put_all_sizes(out: &mut Reply, sizes: &TypeSizes<'_>, count: u32) {
    put_sizes(out, sizes, 1, Owner::Here, count);
    put_sizes(out, sizes, 0, Owner::Here, count);
    put_sizes(out, sizes, 0, Owner::Instance(1), count);
    out.put("words in 1, in 0, in all:");
    put_number(out, sizes.instance_size(1).map(i64::from));
    put_number(out, sizes.instance_size(0).map(i64::from));
    put_number(out, sizes.program_size().map(i64::from));
    out.put("\n");
}

/// Puts what everything in the program comes to.
fn put_program(alloc: Global, out: &mut Reply, program: &Program, count: u32) {
    put_formals(out, program, 1);
    put_formals(out, program, 0);
    put_constants(alloc, out, program);
    match TypeSizes::of(alloc, program) {
        Ok(sizes) => put_all_sizes(out, &sizes, count.saturating_add(1)),
        Err(_) => out.lack_memory(),
    }
}

/// Puts what a generic comes to in an instance.
pub(crate) fn generic(alloc: Global, out: &mut Reply, words: &str) {
    let (object, words) = split_word(words);
    let (first, words) = split_word(words);
    let (last, count) = split_word(words);
    let object = integer(out, object);
    let range = Range {
        first: integer(out, first),
        last: integer(out, last),
    };
    let count = capped(out, count);
    let program = program(alloc, out, object, range, count);
    put_program(alloc, out, &program, count);
    discard_program(program);
}
