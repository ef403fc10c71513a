//! The layers that all files share: magic and version in front, and the closing digest behind.

ghost use Rattle.std.specs.Prelude.{◌≡◌, ◌++◌, length, OnOk, OnErr, IfOk, Ok};
ghost use Rattle.sha2.specs.Sha256.{sha256};
ghost use Rattle.spelling.specs.Format.{word};
ghost use Rattle.spelling.specs.Layers.{open_file, close_file, sealed};
ghost use Rattle.spelling.specs.Outcome.{IsAnswer};

use crate::fault::LayerFault;
use crate::format::Writable;
use crate::number::read_u32;
use cov_base::Digest;
use sha2::{Digest as _, Sha256};
use std::alloc::{AllocError, Global};

/// How many bytes a file has at least before its version can be told.
const HEAD: usize = 8;

/// How many bytes a digest takes.
const DIGEST: usize = 32;

/// The SHA-256 of bytes.
pub fn digest(bytes: &[u8]) -> Digest
    ensures { result ≡ sha256 bytes.now }
{
    Sha256::digest(bytes)
}

/// The version of a file that begins with this magic, and the bytes after it. `Short` is answered
/// under 8 bytes, then `Magic`.
pub fn opened<'a>(magic: &[u8; 4], bytes: &'a [u8]) -> Result<(u32, &'a [u8]), LayerFault>
    ensures { IsAnswer (λ x. (x.0, x.1.now)) result (open_file magic.now bytes.now) }
{
    if bytes.len() < HEAD {
        return Err(LayerFault::Short);
    }
    let (front, rest) = bytes.split_at(4);
    if front != magic.as_slice() {
        return Err(LayerFault::Magic);
    }
    let (version, rest) = read_u32(rest)?;
    Ok((version, rest))
}

/// The closing digest of a file, where `rest` is what stands behind all that it holds. `Short` is
/// answered where that is less than a digest, `Long` where it is more, and `Damaged` where it isn't
/// the SHA-256 of the bytes before.
pub fn closed(bytes: &[u8], rest: &[u8]) -> Result<Digest, LayerFault>
    ensures { result ≡ close_file bytes.now rest.now }
{
    if rest.len() < DIGEST {
        return Err(LayerFault::Short);
    }
    if rest.len() > DIGEST {
        return Err(LayerFault::Long);
    }
    let end = bytes.len().saturating_sub(DIGEST);
    let wanted = digest(&bytes[..end]);
    if rest != wanted.as_slice() {
        return Err(LayerFault::Damaged);
    }
    Ok(wanted)
}

/// The front of a file: its magic and its version.
pub fn start_file(alloc: Global, magic: &[u8; 4], version: u32) -> Result<Vec<u8>, AllocError>
    ensures { IfOk result (λ bytes. bytes.items ≡ magic.now ++ word version) }
{
    let mut bytes = Vec::from_slice(alloc, magic)?;
    version.write(&mut bytes)?;
    Ok(bytes)
}

/// Appends the SHA-256 of what the bytes are. Where memory is refused, they are as before.
pub fn seal(bytes: &mut Vec<u8>) -> Result<(), AllocError>
    ensures seals { OnOk result (bytes.new.items ≡ sealed bytes.old.items) }
    ensures refused { OnErr result (bytes.new.items ≡ bytes.old.items) }
{
    let closing = digest(bytes.as_slice());
    bytes.extend_from_slice(&closing)
}
