//! Numbers, runs of bytes and digests.

ghost use Rattle.std.specs.Prelude.{◌≡◌, ◌++◌, ◌<◌, ◌^◌, length, OnOk, OnErr, IfOk};
ghost use Rattle.spelling.specs.Format.{front, digest, byte, read_byte, number, read_word, long_number, read_long_word, long_word};
ghost use Rattle.spelling.specs.Laws.{digest_ok, byte_ok, number_ok, long_number_ok};
ghost use Rattle.spelling.specs.Outcome.{Reads};

use crate::fault::Short;
use crate::format::{Formatted, Readable, Writable};
use cov_base::{Digest, Failure, put_u32};
use std::alloc::{AllocError, Global};

/// The first byte, and the bytes after it.
pub fn read_u8(bytes: &[u8]) -> Result<(u8, &[u8]), Short>
    ensures { Reads (λ x. (x.0, x.1.now)) result (read_byte bytes.now) }
{
    match bytes {
        [first, rest @ ..] => Ok((*first, rest)),
        [] => Err(Short),
    }
}

/// The number in the first four bytes, and the bytes after them.
#[tactic(auto, unfolding(crate::specs::Format::read_word))]
pub fn read_u32(bytes: &[u8]) -> Result<(u32, &[u8]), Short>
    ensures { Reads (λ x. (x.0, x.1.now)) result (read_word bytes.now) }
{
    if bytes.len() < 4 {
        return Err(Short);
    }
    let (front, rest) = bytes.split_at(4);
    let number = u32::from_le_bytes([front[0], front[1], front[2], front[3]]);
    Ok((number, rest))
}

/// The number in the first eight bytes, and the bytes after them.
#[tactic(auto, unfolding(crate::specs::Format::read_long_word))]
pub fn read_u64(bytes: &[u8]) -> Result<(u64, &[u8]), Short>
    ensures { Reads (λ x. (x.0, x.1.now)) result (read_long_word bytes.now) }
{
    if bytes.len() < 8 {
        return Err(Short);
    }
    let (front, rest) = bytes.split_at(8);
    let number = u64::from_le_bytes([
        front[0], front[1], front[2], front[3], front[4], front[5], front[6], front[7],
    ]);
    Ok((number, rest))
}

/// The first `len` bytes, and the bytes after them.
pub fn read_bytes(len: usize, bytes: &[u8]) -> Result<(&[u8], &[u8]), Short>
    ensures gives { Reads (λ x. (x.0.now, x.1.now)) result (front len bytes.now) }
    ensures len { IfOk result (λ x. length x.0.now ≡ len) }
{
    if bytes.len() < len {
        return Err(Short);
    }
    Ok(bytes.split_at(len))
}

/// The first 32 bytes, and the bytes after them.
pub fn read_digest(bytes: &[u8]) -> Result<(Digest, &[u8]), Short>
    ensures { Reads (λ x. (x.0, x.1.now)) result (front 32 bytes.now) }
{
    let (front, rest) = read_bytes(32, bytes)?;
    let mut digest = [0; 32];
    digest.copy_from_slice(front);
    Ok((digest, rest))
}

/// Appends the eight bytes of `value`. Where memory is refused, `into` is as before.
#[tactic(auto, unfolding(crate::specs::Format::long_word))]
pub fn put_u64(into: &mut Vec<u8>, value: u64) -> Result<(), AllocError>
    ensures appends { OnOk result (into.new.items ≡ into.old.items ++ long_word value) }
    ensures refused { OnErr result (into.new.items ≡ into.old.items) }
{
    into.extend_from_slice(&value.to_le_bytes())
}

impl Formatted for u8 {
    ghost format = { byte };

    ghost is_format = { byte_ok };
}

impl Readable for u8 {
    fn read(_alloc: Global, bytes: &[u8]) -> Result<(u8, &[u8]), Failure<Short>> {
        Ok(read_u8(bytes)?)
    }
}

impl Writable for u8 {
    ghost CountsFit = { λ _. Unit {0} };

    fn write(&self, into: &mut Vec<u8>) -> Result<(), AllocError> {
        into.push(*self)?;
        Ok(())
    }
}

impl Formatted for u32 {
    ghost format = { number };

    ghost is_format = { number_ok };
}

impl Readable for u32 {
    fn read(_alloc: Global, bytes: &[u8]) -> Result<(u32, &[u8]), Failure<Short>> {
        Ok(read_u32(bytes)?)
    }
}

impl Writable for u32 {
    ghost CountsFit = { λ _. Unit {0} };

    #[tactic(auto, unfolding(crate::specs::Format::word))]
    fn write(&self, into: &mut Vec<u8>) -> Result<(), AllocError> {
        put_u32(into, *self)
    }
}

impl Formatted for u64 {
    ghost format = { long_number };

    ghost is_format = { long_number_ok };
}

impl Readable for u64 {
    fn read(_alloc: Global, bytes: &[u8]) -> Result<(u64, &[u8]), Failure<Short>> {
        Ok(read_u64(bytes)?)
    }
}

impl Writable for u64 {
    ghost CountsFit = { λ _. Unit {0} };

    fn write(&self, into: &mut Vec<u8>) -> Result<(), AllocError> {
        put_u64(into, *self)
    }
}

impl Formatted for [u8; 32] {
    ghost format = { digest };

    ghost is_format = { digest_ok };
}

impl Readable for [u8; 32] {
    fn read(_alloc: Global, bytes: &[u8]) -> Result<([u8; 32], &[u8]), Failure<Short>> {
        Ok(read_digest(bytes)?)
    }
}

impl Writable for [u8; 32] {
    ghost CountsFit = { λ _. Unit {0} };

    fn write(&self, into: &mut Vec<u8>) -> Result<(), AllocError> {
        into.extend_from_slice(self)
    }
}
