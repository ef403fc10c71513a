//! Writing an object file.

ghost use Rattle.std.specs.Prelude.{◌≡◌, IfOk};
ghost use Rattle.object_format.specs.declared.object.Object.{Object};
ghost use Rattle.object_format.specs.Counts.{HasFile};
ghost use Rattle.object_format.specs.File.{object_bytes, digest_of, closed_object, HasSpelling};
ghost use Rattle.object_format.specs.Read.{IsObject, HasObject};

use crate::layout::put_parts;
use crate::object::Object;
use cov_base::Digest;
use spelling::{digest, start_file};
use std::alloc::{AllocError, Global};

/// The one file of an object's parts, which pass the checks. The object's own closing digest isn't
/// looked at.
pub fn write_object(alloc: Global, value: &Object) -> Result<Vec<u8>, AllocError>
    requires { HasObject value.now }
    ensures bytes { IfOk result (λ bytes. bytes.items ≡ object_bytes value.now) }
    // What is written is read as the same parts, with the digest of the file.
    ensures reads_back { IfOk result (λ _. IsObject (closed_object value.now)) }
{
    let (bytes, _closing) = write_with_digest(alloc, value)?;
    Ok(bytes)
}

/// The one file of an object's parts, which pass the checks, and the digest at its end.
pub fn write_with_digest(alloc: Global, value: &Object) -> Result<(Vec<u8>, Digest), AllocError>
    requires { HasObject value.now }
    ensures bytes { IfOk result (λ made. made.0.items ≡ object_bytes value.now) }
    ensures closing { IfOk result (λ made. made.1 ≡ digest_of value.now) }
    ensures reads_back { IfOk result (λ _. IsObject (closed_object value.now)) }
{
    write_parts(alloc, value)
}

/// A law: what can be read can be written.
pub fn what_is_read_can_be_written()
    ensures { (o : Object) → IsObject o → HasObject o }
{}

/// The one file of an object's parts, and the digest at its end, whether or not the parts pass the
/// checks.
pub fn write_parts(alloc: Global, value: &Object) -> Result<(Vec<u8>, Digest), AllocError>
    requires { HasFile value.now }
    ensures bytes { IfOk result (λ made. made.0.items ≡ object_bytes value.now) }
    ensures closing { IfOk result (λ made. made.1 ≡ digest_of value.now) }
    // Each number of a value of the type fits the bytes that stand for it.
    ensures spelled { IfOk result (λ _. HasSpelling value.now) }
{
    let mut bytes = start_file(alloc, b"GCOB", 1)?;
    put_parts(&mut bytes, value)?;
    let closing = digest(bytes.as_slice());
    bytes.extend_from_slice(&closing)?;
    Ok((bytes, closing))
}
