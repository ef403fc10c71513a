//! What the layers of an object's file say, before its parts are checked.

ghost use Rattle.std.specs.Prelude.{◌≡◌, IfOk, Ok};
ghost use Rattle.object_format.specs.declared.object.Object.{Object};
ghost use Rattle.object_format.specs.File.{object_bytes, IsClosed, fault_of, structured};
ghost use Rattle.spelling.specs.Outcome.{Delivers};

use crate::fault::ObjectFault;
use crate::object::Object;
use crate::parts::Parts;
use cov_base::Failure;
use spelling::{LayerFault, read_file};
use std::alloc::Global;

impl From<LayerFault> for ObjectFault {
    ghost from_gives = { λ layer fault. fault ≡ fault_of layer };

    fn from(layer: LayerFault) -> Self {
        match layer {
            LayerFault::Short => ObjectFault::Short,
            LayerFault::Magic => ObjectFault::Magic,
            LayerFault::Version => ObjectFault::Version,
            LayerFault::Long => ObjectFault::Long,
            LayerFault::Damaged => ObjectFault::Damaged,
        }
    }
}

/// The object that the bytes are the file of, whatever its parts are. The fault is the first of
/// `Short`, `Magic`, `Version`, `Short`, `Long` and `Damaged` that holds of them.
pub fn structure(alloc: Global, bytes: &[u8]) -> Result<Object, Failure<ObjectFault>>
    // What is read is spelled so.
    ensures found { IfOk result (λ o. IsClosed o × (bytes.now ≡ object_bytes o)) }

    // What is spelled so is read, unless memory is refused.
    ensures only { (o : Object) → IsClosed o → bytes.now ≡ object_bytes o → Delivers (λ o. o) result (Ok o) }

    // Which fault it is.
    ensures exact { Delivers (λ o. o) result (structured bytes.now) }
{
    layered(alloc, bytes)
}

/// What the layers answer.
#[tactic(auto, unfolding(crate::specs::File::structured))]
fn layered(alloc: Global, bytes: &[u8]) -> Result<Object, Failure<ObjectFault>>
    ensures { Delivers (λ o. o) result (structured bytes.now) }
{
    let (parts, closing) = match read_file::<Parts>(alloc, b"GCOB", 1, bytes) {
        Ok(read) => read,
        Err(Failure::Fault(layer)) => return Err(Failure::Fault(ObjectFault::from(layer))),
        Err(Failure::WantOfMemory) => return Err(Failure::WantOfMemory),
    };
    let object = parts.with_digest(closing);
    Ok(object)
}

/// A law: objects of one file are one object.
pub fn one_object()
    ensures { (a b : Object) → IsClosed a → IsClosed b → object_bytes a ≡ object_bytes b → a ≡ b }
{}
