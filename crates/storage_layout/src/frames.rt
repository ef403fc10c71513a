//! The objects of a body in its frame (Ada RM 2012, 3.3.1, 6.4.1).

ghost use Rattle.std.specs.Prelude.{◌≡◌, ◌+◌, ◌-◌, [], IfOk, length, nat_lt, ◌&&◌};
ghost use Rattle.ada_tree.specs.Objects.{capped};
ghost use Rattle.storage_layout.specs.Frames as spec;

use ada_resolved::TypeSizes;
use ada_tree::Subtype;
use cov_base::Seq;
use std::alloc::{AllocError, Global};

/// An object of a subprogram: its type, and the slot of its first word. The others stand in the slots before
/// it.
#[derive(Clone, Copy)]
pub struct LocalObject {
    pub subtype: Subtype,
    pub slot: u32,
}

/// The objects of a body in its frame, and the first slot behind them.
pub struct FrameLayout {
    /// By number.
    pub objects: Seq<LocalObject>,
    pub base: u32,
}

// Written out: a derived drop is proved anew in each crate above.
impl Drop for FrameLayout {
    fn drop(self) {
        let FrameLayout {
            objects: _,
            base: _,
        } = self;
    }
}

/// A number of slots: it stands still at 2^32 - 1.
pub(crate) fn capped(count: usize) -> u32
    ensures { result ≡ capped count }
{
    u32::try_from(count).unwrap_or(u32::MAX)
}

/// Whether a type is scalar.
fn is_scalar(subtype: Subtype) -> bool
    ensures { result ≡ spec.is_scalar subtype }
{
    match subtype {
        Subtype::Scalar(_) => true,
        Subtype::Composite(..) => false,
    }
}

/// The object with this number, of which the first so many are parameters, where others have all slots below
/// a base.
fn object_at(
    sizes: &TypeSizes,
    instance: u32,
    parameters: usize,
    number: usize,
    base: u32,
    subtype: Subtype,
) -> LocalObject
    ensures { result ≡ spec.object_at sizes.now.program.now instance parameters number base subtype }
{
    if number < parameters && is_scalar(subtype) {
        return LocalObject {
            subtype,
            slot: capped(number),
        };
    }
    LocalObject {
        subtype,
        slot: slots_with(sizes, instance, base, subtype).saturating_sub(1),
    }
}

/// So many slots, and those of an object more.
fn slots_with(sizes: &TypeSizes, instance: u32, base: u32, subtype: Subtype) -> u32
    ensures { result ≡ spec.slots_with sizes.now.program.now instance base subtype }
{
    base.saturating_add(sizes.words(sizes.named(instance, subtype)))
}

/// The first slot behind the object with this number.
fn base_at(
    sizes: &TypeSizes,
    instance: u32,
    parameters: usize,
    number: usize,
    base: u32,
    subtype: Subtype,
) -> u32
    ensures { result ≡ spec.base_at sizes.now.program.now instance parameters number base subtype }
{
    if number < parameters && is_scalar(subtype) {
        return base;
    }
    slots_with(sizes, instance, base, subtype)
}

/// The slots of the objects of a subprogram in an instance, by their types, so many parameters first. A
/// scalar parameter stands in the slot of its number, where a call leaves it; all else stands behind the
/// slots of all parameters, one object behind the other. The slots of a frame stand still at 2^32 - 1.
pub fn frame_of(
    alloc: Global,
    sizes: &TypeSizes,
    instance: u32,
    parameters: usize,
    subtypes: &[Subtype],
) -> Result<FrameLayout, AllocError>
    ensures objects { IfOk result (λ f. f.objects
        ≡ spec.objects_of_frame sizes.now.program.now instance parameters subtypes.now) }
    ensures base { IfOk result (λ f. f.base
        ≡ spec.base_of_frame sizes.now.program.now instance parameters subtypes.now) }
{
    let mut base = capped(parameters);
    let mut objects = Vec::new(alloc);
    for (number, subtype) in subtypes.iter().enumerate() {
        objects.push(object_at(sizes, instance, parameters, number, base, *subtype))?;
        base = base_at(sizes, instance, parameters, number, base, *subtype);
    }
    Ok(FrameLayout {
        objects: Seq::from(objects),
        base,
    })
}
