//! What the code of a body is made by (Ada RM 2012, 3.5, 4.9, 6.4, 11.1, 12.3).

ghost use Rattle.std.specs.Prelude.{◌≡◌, IfOk, [], slice_get, unwrap_or};
ghost use Rattle.ada_tree.specs.Programs.{bounds_of, target_of};
ghost use Rattle.ada_tree.specs.View.{callee_of, exception_of, object_of, scalar_range_of, static_of};
ghost use Rattle.lower.specs.Context as spec;

use ada_resolved::{TypeIn, TypeSizes, bounds_in, exception_in, number_in, owner_in, target_in};
use ada_tree::{
    Callee, ExceptionName, Mode, Object, Parameter, Range, ScalarRange, Static, Subprogram,
    Subtype, Target,
};
use cov_base::{Seq, number_behind};
use generic_expand::BodyCopy;
use kernel_ir::{Simple, Slot};
use std::alloc::AllocError;
use storage_layout::{LaidType, LibraryPlace, LocalObject, layouts_before};

/// The base range of each integer type, which is that of Integer too (RM 3.5.4).
pub(crate) const BASE: Range = Range {
    first: i32::MIN,
    last: i32::MAX,
};

/// The parameter of `Test_IO.Get`.
const GOTTEN: [Parameter; 1] = [Parameter {
    number: 0,
    mode: Mode::Out,
    subtype: Subtype::Scalar(ScalarRange::Known(BASE)),
}];

/// The parameter of `Test_IO.Put`.
const PUT: [Parameter; 1] = [Parameter {
    number: 0,
    mode: Mode::In,
    subtype: Subtype::Scalar(ScalarRange::Known(BASE)),
}];

/// Where an object stands: its first word, in the frame or at the library level.
#[derive(Clone, Copy)]
pub(crate) enum Home {
    Frame(Slot),
    Library(u32),
}

/// The parameters of what is called, as they are in an instance.
#[derive(Clone, Copy)]
pub(crate) struct Signature<'a> {
    pub instance: u32,
    pub parameters: &'a [Parameter],
}

/// What the code of a body in an instance is made by.
#[derive(Clone, Copy)]
pub(crate) struct BodyContext<'a> {
    /// The program, with the sizes of its types.
    pub sizes: &'a TypeSizes<'a>,
    /// The number of the instance, which is 0 for text in no generic.
    pub instance: u32,
    /// How many slots the frame has.
    pub width: Slot,
    /// The objects of the subprogram, by number.
    pub locals: &'a [LocalObject],
    /// The objects of the library level, by instance.
    pub library: &'a [Seq<LibraryPlace>],
    /// The bodies of the kernel, by number.
    pub bodies: &'a [BodyCopy],
    /// The layouts of the kernel, by number.
    pub layouts: &'a [LaidType],
}

/// The object of a subprogram with this number.
fn local_at(locals: &[LocalObject], number: u32) -> Option<LocalObject>
    ensures { result ≡ slice_get locals.now number }
{
    locals.get(number as usize).copied()
}

/// The place of the object with this declaration.
fn place_among(places: &[LibraryPlace], declaration: u32) -> Option<LibraryPlace>
    ensures { result ≡ spec.place_among declaration places.now }
{
    for place in places {
        if place.declaration == declaration {
            return Some(*place);
        }
    }
    None
}

/// The place of an object of the library level in an instance.
fn place_at(library: &[Seq<LibraryPlace>], instance: u32, declaration: u32) -> Option<LibraryPlace>
    ensures { result ≡ spec.place_among declaration (unwrap_or (slice_get library.now instance) []) }
{
    place_among(library.get(instance as usize)?.as_slice(), declaration)
}

/// The parameters of the subprogram with this number: none, where there is no such subprogram.
fn parameters_at(subprograms: &[Subprogram], number: u32) -> &[Parameter]
    ensures { result.now ≡ spec.parameters_at (slice_get subprograms.now number) }
{
    match subprograms.get(number as usize) {
        Some(subprogram) => subprogram.parameters.as_slice(),
        None => &[],
    }
}

/// How many bodies stand before that of a subprogram in an instance. A list of 2 ^ 32 bodies is too large
/// for memory.
pub(crate) fn bodies_before(
    bodies: &[BodyCopy],
    instance: u32,
    subprogram: u32,
) -> Result<u32, AllocError>
    ensures { IfOk result (λ n. n ≡ spec.bodies_before instance subprogram bodies.now) }
{
    let mut before: u32 = 0;
    for body in bodies {
        if body.instance.0 == instance && body.subprogram == subprogram {
            return Ok(before);
        }
        before = number_behind(before)?;
    }
    Ok(before)
}

impl Home {
    ghost use Rattle.lower.specs.Context.{home_of};
    ghost use Rattle.statement_code.specs.Statements.{keep_on};
    ghost use Rattle.statement_code.specs.Values.{address_on, fetch_on};

    /// The address of the object's first word, into a slot.
    pub fn address(self, to: Slot) -> Simple
        ensures { result ≡ address_on to (home_of self) }
    {
        match self {
            Home::Frame(slot) => Simple::FrameAddress { to, slot },
            Home::Library(word) => Simple::LibraryAddress { to, word },
        }
    }

    /// A slot's value, into the object's first word.
    pub fn keep(self, from: Slot) -> Simple
        ensures { result ≡ keep_on from (home_of self) }
    {
        match self {
            Home::Frame(to) => Simple::Move { to, from },
            Home::Library(word) => Simple::WriteLibrary { word, from },
        }
    }

    /// The object's first word, into a slot.
    pub fn fetch(self, to: Slot) -> Simple
        ensures { result ≡ fetch_on to (home_of self) }
    {
        match self {
            Home::Frame(from) => Simple::Move { to, from },
            Home::Library(word) => Simple::ReadLibrary { to, word },
        }
    }
}

impl<'a> BodyContext<'a> {
    ghost use Rattle.lower.specs.Context.{home_for, home_of, layout_for, layout_of, names_for, signature_for, site_for, type_for};

    /// The value of a static expression; 0 for one without a value, which no legal program has.
    pub fn number(&self, value: Static) -> i32
        ensures { result ≡ (names_for self.now).number (static_of value) }
    {
        number_in(self.sizes.program(), self.instance, value).unwrap_or(0)
    }

    /// The bounds of a range; 0 and 0 for one without a value, which no legal program has.
    pub fn bounds(&self, range: ScalarRange) -> Range
        ensures { bounds_of result ≡ (names_for self.now).bounds (scalar_range_of range) }
    {
        bounds_in(self.sizes.program(), self.instance, range).unwrap_or(Range { first: 0, last: 0 })
    }

    /// The type of an object, if there is such an object.
    pub fn type_of(&self, object: Object) -> Option<TypeIn>
        ensures { result ≡ type_for self.now (object_of object) }
    {
        match object {
            Object::Local(number) => {
                let local = local_at(self.locals, number)?;
                Some(self.sizes.named(self.instance, local.subtype))
            }
            Object::Library(owner, declaration) => {
                let instance = owner_in(self.instance, owner);
                let place = place_at(self.library, instance, declaration)?;
                Some(self.sizes.named(instance, place.subtype))
            }
        }
    }

    /// Where an object stands.
    pub fn home(&self, object: Object) -> Home
        ensures { home_of result ≡ home_for self.now (object_of object) }
    {
        match object {
            Object::Local(number) => {
                Home::Frame(local_at(self.locals, number).map_or(0, |local| local.slot))
            }
            Object::Library(owner, declaration) => {
                let instance = owner_in(self.instance, owner);
                let place = place_at(self.library, instance, declaration);
                Home::Library(place.map_or(0, |place| place.word))
            }
        }
    }

    /// What a call comes to.
    pub fn target(&self, callee: Callee) -> Target
        ensures { target_of result ≡ (names_for self.now).target (callee_of callee) }
    {
        target_in(self.sizes.program(), self.instance, callee)
    }

    /// The parameters of what a call comes to.
    pub fn signature(&self, target: Target) -> Signature<'a>
        ensures { signature_for self.now result ≡ (names_for self.now).parameters (target_of target) }
    {
        match target {
            Target::TestGet => Signature {
                instance: 0,
                parameters: &GOTTEN,
            },
            Target::TestPut => Signature {
                instance: 0,
                parameters: &PUT,
            },
            Target::Body(instance, subprogram) => {
                let subprograms = self.sizes.program().subprograms.as_slice();
                Signature {
                    instance,
                    parameters: parameters_at(subprograms, subprogram),
                }
            }
        }
    }

    /// The number of an exception.
    pub fn exception(&self, name: ExceptionName) -> Result<u32, AllocError>
        ensures { IfOk result (λ x. x ≡ (names_for self.now).exception (exception_of name)) }
    {
        exception_in(self.sizes.program(), self.instance, name)
    }

    /// The number of the body of a subprogram in an instance.
    pub fn body(&self, instance: u32, subprogram: u32) -> Result<u32, AllocError>
        ensures { IfOk result (λ n. n ≡ (site_for self.now).body instance subprogram) }
    {
        bodies_before(self.bodies, instance, subprogram)
    }

    /// The number of the layout of a type; 0 for a scalar one, which has none.
    fn layout_of(&self, subtype: Subtype) -> Result<u32, AllocError>
        ensures { IfOk result (λ n. n ≡ layout_of self.now subtype) }
    {
        match subtype {
            Subtype::Scalar(_) => Ok(0),
            Subtype::Composite(owner, number) => {
                layouts_before(self.layouts, owner_in(self.instance, owner), number)
            }
        }
    }

    /// The number of the layout of an object of the subprogram.
    pub fn layout(&self, number: u32) -> Result<u32, AllocError>
        ensures { IfOk result (λ n. n ≡ layout_for self.now number) }
    {
        match local_at(self.locals, number) {
            Some(local) => self.layout_of(local.subtype),
            None => Ok(0),
        }
    }
}
