//! Reading an object file, with all checks.

ghost use Rattle.std.specs.Prelude.{◌≡◌, IfOk, IfErr, Ok};
ghost use Rattle.object_format.specs.declared.object.Object.{Object};
ghost use Rattle.object_format.specs.Checked.{IsSound};
ghost use Rattle.object_format.specs.File.{object_bytes, structured};
ghost use Rattle.object_format.specs.Read.{IsObject, IsFailure};
ghost use Rattle.spelling.specs.Outcome.{Delivers};

use crate::checks::check;
use crate::fault::ObjectFault;
use crate::object::Object;
use crate::structure::structure;
use cov_base::Failure;
use std::alloc::Global;

/// The object whose file the bytes are. The fault is the first check that fails: `Short` under 8
/// bytes, `Magic`, `Version`, `Short` where a count runs past the end, and then the others in the
/// order of [`ObjectFault`].
pub fn read_object(alloc: Global, bytes: &[u8]) -> Result<Object, Failure<ObjectFault>>
    // What is read is an object, and is spelled so.
    ensures found { IfOk result (λ o. IsObject o × (bytes.now ≡ object_bytes o)) }
    // What is spelled so is read, unless memory is refused.
    ensures only { (o : Object) → IsObject o → bytes.now ≡ object_bytes o → Delivers (λ o. o) result (Ok o) }
    // Which fault it is.
    ensures fault { IfErr result (IsFailure bytes.now) }
{
    checked(alloc, bytes)
}

/// What the checks answer.
fn checked(alloc: Global, bytes: &[u8]) -> Result<Object, Failure<ObjectFault>>
    ensures read { IfOk result (λ o. (structured bytes.now ≡ Ok o) × IsSound o) }
    ensures fault { IfErr result (IsFailure bytes.now) }
{
    let value = structure(alloc, bytes)?;
    let passed = check(alloc, &value);
    passed.and(Ok(value))
}
