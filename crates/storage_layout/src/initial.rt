//! What the words of an object begin with (Ada RM 2012, 3.3.1, 4.3.3, 7).

ghost use Rattle.std.specs.Prelude.{◌≡◌, ◌++◌, OnOk};
ghost use Rattle.ada_meaning.specs.Arithmetic.{count_between};
ghost use Rattle.ada_tree.specs.Programs.{bounds_of};
ghost use Rattle.ada_resolved.specs.Forms.{shape_of, shapes_of};
ghost use Rattle.storage_layout.specs.Initial as spec;

use ada_resolved::{RecordForm, TypeForm, TypeIn, TypeSizes, number_in, values_in};
use ada_tree::{Initial, Program, Range};
use std::alloc::AllocError;

/// What the scalar parts of an object begin with.
#[derive(Clone, Copy)]
pub(crate) enum First {
    /// The first values of their subtypes.
    OfSubtypes,
    /// A value, in `(others => ..)` round so many arrays.
    Given(u32, i32),
}

/// What the parts of an object of the library level begin with in an instance; 0 for a static expression
/// without a value, which no legal program has.
pub(crate) fn first_of(program: &Program, instance: u32, initial: Initial) -> First
    ensures { result ≡ spec.first_of program.now instance initial }
{
    match initial {
        Initial::None => First::OfSubtypes,
        Initial::Static(others, value) => {
            First::Given(others, number_in(program, instance, value).unwrap_or(0))
        }
    }
}

/// What a scalar begins with.
fn first_number(first: First, range: Range) -> i32
    ensures { result ≡ spec.first_number first (bounds_of range) }
{
    match first {
        First::Given(0, value) => value,
        _ => range.first,
    }
}

/// What the components of an array begin with.
fn first_of_components(first: First) -> First
    ensures { result ≡ spec.first_of_components first }
{
    match first {
        First::OfSubtypes => First::OfSubtypes,
        First::Given(others, value) => match others.checked_sub(1) {
            Some(others) => First::Given(others, value),
            None => First::OfSubtypes,
        },
    }
}

/// Adds the words that an object of a type begins with.
#[cycle(words)]
pub(crate) fn push_words(
    sizes: &TypeSizes,
    words: &mut Vec<u32>,
    of: TypeIn,
    first: First,
) -> Result<(), AllocError>
    ensures { OnOk result (words.new.items
        ≡ words.old.items ++ spec.initial_words (shape_of sizes.now.program.now of) first) }
{
    match sizes.form(of) {
        TypeForm::Scalar(range) => {
            words.push(first_number(first, range).cast_unsigned())?;
            Ok(())
        }
        TypeForm::Array(range, component) => {
            push_array(sizes, words, range, component, first_of_components(first))
        }
        TypeForm::Record(record) => push_record(sizes, words, record),
    }
}

/// Adds those of the components of an array.
#[cycle(words)]
fn push_array(
    sizes: &TypeSizes,
    words: &mut Vec<u32>,
    range: Range,
    component: TypeIn,
    first: First,
) -> Result<(), AllocError>
    ensures { OnOk result (words.new.items ≡ words.old.items ++ spec.repeated (count_between range.first range.last)
        (spec.initial_words (shape_of sizes.now.program.now component) first)) }
{
    for _ in 0..values_in(range) {
        push_words(sizes, words, component, first)?;
    }
    Ok(())
}

/// Adds those of the components of a record.
#[cycle(words)]
fn push_record(
    sizes: &TypeSizes,
    words: &mut Vec<u32>,
    record: RecordForm,
) -> Result<(), AllocError>
    ensures { OnOk result (words.new.items ≡ words.old.items ++ spec.all_initial_words
        (shapes_of sizes.now.program.now record.entry.instance record.entry.below record.entry.components.now)) }
{
    for subtype in record.subtypes() {
        push_words(
            sizes,
            words,
            record.component_type(*subtype),
            First::OfSubtypes,
        )?;
    }
    Ok(())
}
