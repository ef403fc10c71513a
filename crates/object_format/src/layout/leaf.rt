//! Numbers, digests and texts.

ghost use Rattle.object_format.specs.Counts.{Uncounted, IsCountable};
ghost use Rattle.spelling.specs.Format as format;

use crate::layout::stored::Stored;
use cov_base::{Bytes, Digest, Failure, put_u32};
use spelling::{Readable, Short, read_digest, read_u8, read_u32};
use std::alloc::{AllocError, Global};

impl Stored for u8 {
    ghost format = { format.byte };

    ghost is_counted = { Uncounted };

    fn read(_alloc: Global, bytes: &[u8]) -> Result<(u8, &[u8]), Failure<Short>> {
        Ok(read_u8(bytes)?)
    }

    fn write(&self, into: &mut Vec<u8>) -> Result<(), AllocError> {
        into.extend_from_slice(&[*self])
    }
}

impl Stored for u32 {
    ghost format = { format.number };

    ghost is_counted = { Uncounted };

    fn read(_alloc: Global, bytes: &[u8]) -> Result<(u32, &[u8]), Failure<Short>> {
        Ok(read_u32(bytes)?)
    }

    #[tactic(auto, unfolding(spelling::specs::Format::word))]
    fn write(&self, into: &mut Vec<u8>) -> Result<(), AllocError> {
        put_u32(into, *self)
    }
}

impl Stored for [u8; 32] {
    ghost format = { format.digest };

    ghost is_counted = { Uncounted };

    fn read(_alloc: Global, bytes: &[u8]) -> Result<(Digest, &[u8]), Failure<Short>> {
        Ok(read_digest(bytes)?)
    }

    fn write(&self, into: &mut Vec<u8>) -> Result<(), AllocError> {
        into.extend_from_slice(self)
    }
}

impl Stored for Bytes {
    ghost format = { format.string };

    ghost is_counted = { IsCountable };

    fn read(alloc: Global, bytes: &[u8]) -> Result<(Bytes, &[u8]), Failure<Short>> {
        <Bytes as Readable>::read(alloc, bytes)
    }

    #[tactic(auto, unfolding(spelling::specs::Format::word))]
    fn write(&self, into: &mut Vec<u8>) -> Result<(), AllocError> {
        put_u32(into, self.len() as u32)?;
        into.extend_from_slice(self.as_slice())
    }
}
