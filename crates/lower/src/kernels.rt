//! Kernels of programs, with the copies of their bodies (Ada RM 2012, 6.3, 7, 12.3).

ghost use Rattle.std.specs.Prelude.{◌≡◌, ◌+◌, IfOk, length, slice_get};
ghost use Rattle.std.specs.Option.{option_copied};
ghost use Rattle.cov_base.specs.Lists.{Everywhere};
ghost use Rattle.storage_layout.specs.Layouts.{HasWord};
ghost use Rattle.lower.specs.Kernel as spec;

use crate::bodies::put_body;
use crate::context::{BodyContext, Signature, bodies_before};
use ada_resolved::TypeSizes;
use ada_tree::{Program, Raisable, Subprogram};
use cov_base::{Seq, number_after, numbered};
use frame_widths::end_of_block;
use generic_expand::{BodyCopy, Copies};
use kernel_ir::{Body, Code, Kernel};
use std::alloc::{AllocError, Global};
use storage_layout::{LaidType, LibraryPlace, TypeLayouts, frame_of, library_of};

/// How many exceptions are predefined.
const PREDEFINED: u32 = 4;

/// What the bodies of a kernel share.
#[derive(Clone, Copy)]
struct KernelParts<'a> {
    /// The program, with the sizes of its types.
    sizes: &'a TypeSizes<'a>,
    /// The objects of the library level, by instance.
    library: &'a [Seq<LibraryPlace>],
    /// The bodies, by number.
    bodies: &'a [BodyCopy],
    /// The layouts, by number.
    layouts: &'a [LaidType],
}

/// The body of a subprogram in an instance.
fn lower_subprogram(
    alloc: Global,
    parts: KernelParts,
    instance: u32,
    subprogram: &Subprogram,
) -> Result<Body, AllocError>
    ensures { IfOk result (λ body. body ≡ spec.body_in parts.entry.sizes.now.program.now parts.entry.library.now
        parts.entry.bodies.now parts.entry.layouts.now instance subprogram.now) }
{
    let parameters = subprogram.parameters.as_slice();
    let objects = subprogram.objects.as_slice();
    let frame = frame_of(alloc, parts.sizes, instance, parameters.len(), objects)?;
    let width = end_of_block(frame.base, &subprogram.body);
    let context = BodyContext {
        sizes: parts.sizes,
        instance,
        width,
        locals: frame.objects.as_slice(),
        library: parts.library,
        bodies: parts.bodies,
        layouts: parts.layouts,
    };
    let signature = Signature {
        instance,
        parameters,
    };
    let gives = subprogram.is_function();
    let mut code = Code::new(alloc);
    put_body(
        alloc,
        &context,
        &mut code,
        frame.base,
        signature,
        gives,
        &subprogram.body,
    )?;
    Ok(Body { code, width })
}

/// The subprogram with this number, if there is one.
fn subprogram_at(subprograms: &[Subprogram], number: u32) -> Option<&Subprogram>
    ensures { option_copied result ≡ slice_get subprograms.now number }
{
    subprograms.get(number as usize)
}

/// The body of a copy; one of no subprogram has no code.
fn lower_copy(alloc: Global, parts: KernelParts, copy: BodyCopy) -> Result<Body, AllocError>
    ensures { IfOk result (λ body. body ≡ spec.body_of_copy parts.entry.sizes.now.program.now parts.entry.library.now
        parts.entry.bodies.now parts.entry.layouts.now copy) }
{
    let subprograms = parts.sizes.program().subprograms.as_slice();
    match subprogram_at(subprograms, copy.subprogram) {
        Some(subprogram) => lower_subprogram(alloc, parts, copy.instance.0, subprogram),
        None => Ok(Body {
            code: Code::new(alloc),
            width: 1,
        }),
    }
}

/// The bodies of copies, in their order.
fn lower_bodies(alloc: Global, parts: KernelParts) -> Result<Seq<Body>, AllocError>
    ensures { IfOk result (λ bodies. bodies ≡ spec.bodies_of_copies parts.entry.sizes.now.program.now
        parts.entry.library.now parts.entry.bodies.now parts.entry.layouts.now parts.entry.bodies.now) }
{
    let mut bodies = Vec::new(alloc);
    for copy in parts.bodies {
        bodies.push(lower_copy(alloc, parts, *copy)?)?;
    }
    Ok(Seq::from(bodies))
}

/// How many exceptions there are beside these declared ones. A list of 2^32 exceptions is too large for
/// memory.
fn exception_count(declared: &[Raisable]) -> Result<u32, AllocError>
    ensures { IfOk result (λ n. n ≡ 4 + length declared.now) }
{
    number_after(numbered(declared.len())?, PREDEFINED)
}

/// The kernel of a program, with the copies of its bodies in their order: the code of each in its instance,
/// the words of the library level, and the layouts of types, whose first values are numbers of 32 bits.
pub fn lower(alloc: Global, program: &Program, copies: &Copies) -> Result<Kernel, AllocError>
    ensures kernel { IfOk result (λ kernel. kernel ≡ spec.kernel_for program.now copies.now.bodies) }
    ensures words { IfOk result (λ kernel. Everywhere HasWord kernel.layouts) }
{
    let main = bodies_before(copies.bodies.as_slice(), 0, program.main)?;
    let exceptions = exception_count(program.exceptions.as_slice())?;
    let sizes = TypeSizes::of(alloc, program)?;
    let library = library_of(alloc, &sizes)?;
    let layouts = TypeLayouts::of(alloc, &sizes)?;
    let bodies = lower_bodies(
        alloc,
        KernelParts {
            sizes: &sizes,
            library: library.places.as_slice(),
            bodies: copies.bodies.as_slice(),
            layouts: layouts.laid(),
        },
    )?;
    Ok(Kernel {
        bodies,
        main,
        layouts: layouts.into_layouts(),
        library: library.words,
        exceptions,
    })
}
