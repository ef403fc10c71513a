//! The objects of the library level (Ada RM 2012, 7, 12.3).

ghost use Rattle.std.specs.Prelude.{◌≡◌, ◌+◌, ◌++◌, [], IfOk, OnOk, length};
ghost use Rattle.ada_tree.specs.Objects.{capped};
ghost use Rattle.storage_layout.specs.Library as spec;

use crate::frames::capped;
use crate::initial::{first_of, push_words};
use ada_resolved::{TypeSizes, instance_count, stands_in};
use ada_tree::{LibraryObject, Subtype};
use cov_base::Seq;
use std::alloc::{AllocError, Global};

/// An object of the library level in an instance: the number of its declaration, its type, and its first
/// word.
#[derive(Clone, Copy)]
pub struct LibraryPlace {
    pub declaration: u32,
    pub subtype: Subtype,
    pub word: u32,
}

/// The library level: the objects of each instance, by the instance's number, and the words that all of
/// them begin with. Instance 0 has what stands in no generic.
#[derive(Drop)]
pub struct LibraryLayout {
    pub places: Seq<Seq<LibraryPlace>>,
    pub words: Seq<u32>,
}

/// Adds an object where it stands in an instance: its place, and the words that it begins with.
fn push_object(
    sizes: &TypeSizes,
    instance: u32,
    places: &mut Vec<LibraryPlace>,
    words: &mut Vec<u32>,
    object: &LibraryObject,
) -> Result<(), AllocError>
    ensures places { OnOk result (places.new.items
        ≡ places.old.items ++ spec.place_in sizes.now.program.now instance (length words.old.items) object.now) }
    ensures words { OnOk result (words.new.items
        ≡ words.old.items ++ spec.words_in sizes.now.program.now instance object.now) }
{
    let program = sizes.program();
    if !stands_in(program.instances.as_slice(), object.generic, instance) {
        return Ok(());
    }
    places.push(LibraryPlace {
        declaration: object.declaration,
        subtype: object.subtype,
        word: capped(words.len()),
    })?;
    let first = first_of(program, instance, object.initial);
    push_words(sizes, words, sizes.named(instance, object.subtype), first)
}

/// The objects that stand in an instance, and the words that they begin with.
fn push_instance(
    alloc: Global,
    sizes: &TypeSizes,
    instance: u32,
    words: &mut Vec<u32>,
) -> Result<Seq<LibraryPlace>, AllocError>
    ensures places { IfOk result (λ places. places ≡ spec.places_from sizes.now.program.now instance
        (length words.old.items) sizes.now.program.now.objects) }
    ensures words { OnOk result (words.new.items
        ≡ words.old.items ++ spec.all_words_in sizes.now.program.now instance sizes.now.program.now.objects) }
{
    let mut places = Vec::new(alloc);
    for object in sizes.program().objects.as_slice() {
        push_object(sizes, instance, &mut places, words, object)?;
    }
    Ok(Seq::from(places))
}

/// The objects of the library level of a program, one behind the other, instance by instance.
pub fn library_of(alloc: Global, sizes: &TypeSizes) -> Result<LibraryLayout, AllocError>
    ensures places { IfOk result (λ l. l.places ≡ spec.library_places sizes.now.program.now) }
    ensures words { IfOk result (λ l. l.words ≡ spec.library_words sizes.now.program.now) }
{
    let last = instance_count(sizes.program().instances.as_slice())?;
    let mut places = Vec::new(alloc);
    let mut words = Vec::new(alloc);
    for instance in 0..=last {
        places.push(push_instance(alloc, sizes, instance, &mut words)?)?;
    }
    Ok(LibraryLayout {
        places: Seq::from(places),
        words: Seq::from(words),
    })
}
