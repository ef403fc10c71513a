//! An object with its closing digest, and its file.

ghost use Rattle.std.specs.Prelude.{◌≡◌, IfOk};
ghost use Rattle.object_format.specs.File.{closed_object, object_bytes};
ghost use Rattle.object_format.specs.Read.{IsObject, HasObject};

use cov_base::Bytes;
use object_format::{Object, write_with_digest};
use std::alloc::{AllocError, Global};

/// What a compilation makes: the object, and its file.
#[derive(Drop)]
pub struct Compiled {
    pub object: Object,
    pub file: Bytes,
}

/// An object with its closing digest, and its file.
pub fn closed(alloc: Global, object: Object) -> Result<Compiled, AllocError>
    requires { HasObject object }
    ensures object { IfOk result (λ c. c.object ≡ closed_object object) }
    ensures checked { IfOk result (λ c. IsObject c.object) }
    ensures file { IfOk result (λ c. c.file ≡ object_bytes c.object) }
{
    let (file, closing) = write_with_digest(alloc, &object)?;
    let mut closed = object;
    closed.closing = closing;
    Ok(Compiled {
        object: closed,
        file: Bytes::from(file),
    })
}
