//! Whole files of one version, read into memory and written.

ghost use Rattle.std.specs.Prelude.{◌≡◌, length, OnOk, IfOk, Ok};
ghost use Rattle.sha2.specs.Sha256.{sha256};
ghost use Rattle.spelling.specs.Layers.{file, unsealed, single, of_version};
ghost use Rattle.spelling.specs.Outcome.{Delivers};

use crate::fault::{LayerFault, Short};
use crate::format::{Readable, Writable};
use crate::layers::{closed, opened, seal, start_file};
use cov_base::{Digest, Failure};
use std::alloc::{AllocError, Global};

/// What a file of this magic and version holds, and its closing digest. Else the first check that
/// fails, in the order of [`LayerFault`], or want of memory.
pub fn read_file<T: Readable>(
    alloc: Global,
    magic: &[u8; 4],
    version: u32,
    bytes: &[u8],
) -> Result<(T, Digest), Failure<LayerFault>>
    // What is read is spelled so.
    ensures found { IfOk result (λ x. T.format.Fits x.0 × (bytes.now ≡ file magic.now version T.format x.0)) }

    // What is spelled so is read, unless memory is refused.
    ensures only { (x : T) → T.format.Fits x → bytes.now ≡ file magic.now version T.format x
        → Delivers (of_version version) result (Ok (of_version version (x, sha256 (unsealed magic.now version T.format x)))) }

    // Which fault it is.
    ensures exact { Delivers (of_version version) result (single magic.now version T.format bytes.now) }
{
    checked(alloc, magic, version, bytes)
}

/// What the checks answer.
fn checked<T: Readable>(
    alloc: Global,
    magic: &[u8; 4],
    version: u32,
    bytes: &[u8],
) -> Result<(T, Digest), Failure<LayerFault>>
    ensures { Delivers (of_version version) result (single magic.now version T.format bytes.now) }
{
    let (kept, rest) = opened(magic, bytes)?;
    if kept != version {
        return Err(Failure::Fault(LayerFault::Version));
    }
    let (content, rest) = match T::read(alloc, rest) {
        Ok(read) => read,
        Err(Failure::Fault(Short)) => return Err(Failure::Fault(LayerFault::Short)),
        Err(Failure::WantOfMemory) => return Err(Failure::WantOfMemory),
    };
    let closing = closed(bytes, rest)?;
    Ok((content, closing))
}

/// The file of this magic and version that holds a value whose counts and lengths fit the numbers
/// that hold them.
pub fn write_file<T: Writable>(
    alloc: Global,
    magic: &[u8; 4],
    version: u32,
    value: &T,
) -> Result<Vec<u8>, AllocError>
    requires { T.CountsFit value.now }
    ensures spelled { IfOk result (λ bytes. bytes.items ≡ file magic.now version T.format value.now) }
    ensures fits { OnOk result (T.format.Fits value.now) }
{
    let mut bytes = start_file(alloc, magic, version)?;
    value.write(&mut bytes)?;
    seal(&mut bytes)?;
    Ok(bytes)
}
