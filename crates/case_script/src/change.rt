//! Small changes of files.

ghost use Rattle.std.specs.Prelude.{◌≡◌, ◌≤◌, ◌-◌, ◌++◌, length, take, drop, IfOk};
ghost use Rattle.sha2.specs.Sha256.{sha256};

use crate::line::Place;
use sha2::{Digest, Sha256};
use std::alloc::{AllocError, Global};

impl Place {
    /// The place in a file of so many bytes, or the nearest one that it has.
    pub fn within(self, length: usize) -> usize
        ensures { result ≤ length }
    {
        match self {
            Place::FromStart(place) => place.min(length),
            Place::FromEnd(back) => length.saturating_sub(back),
        }
    }
}

/// The bytes with `count` of them from a place on, or all that are left there, replaced by others.
pub fn spliced(
    alloc: Global,
    bytes: &[u8],
    at: usize,
    count: usize,
    new: &[u8],
) -> Result<Vec<u8>, AllocError>
    ensures { IfOk result
        (λ spliced. spliced.items ≡ (take at bytes.now ++ new.now) ++ drop count (drop at bytes.now)) }
{
    let (before, from) = bytes.split_at(at.min(bytes.len()));
    let (_, behind) = from.split_at(count.min(from.len()));
    let mut spliced = Vec::from_slice(alloc, before)?;
    spliced.extend_from_slice(new)?;
    spliced.extend_from_slice(behind)?;
    Ok(spliced)
}

/// The bytes with the last 32 replaced by the SHA-256 of all before.
pub fn closed(alloc: Global, bytes: &[u8]) -> Result<Vec<u8>, AllocError>
    ensures { IfOk result
        (λ closed. closed.items
        ≡ take (length bytes.now - 32) bytes.now ++ sha256 (take (length bytes.now - 32) bytes.now)) }
{
    let body = &bytes[..bytes.len().saturating_sub(32)];
    let digest = Sha256::digest(body);
    let mut closed = Vec::from_slice(alloc, body)?;
    closed.extend_from_slice(digest.as_slice())?;
    Ok(closed)
}
