//! Two values, one behind the other: longer rows are pairs of pairs.

ghost use Rattle.spelling.specs.Format.{◌&◌};

use crate::layout::stored::Stored;
use cov_base::Failure;
use spelling::Short;
use std::alloc::{AllocError, Global};

impl<A: Stored, B: Stored> Stored for (A, B) {
    ghost format = { A.format & B.format };

    ghost is_counted = { λ pair. A.is_counted pair.0 × B.is_counted pair.1 };

    fn read(alloc: Global, bytes: &[u8]) -> Result<((A, B), &[u8]), Failure<Short>> {
        let (first, rest) = A::read(alloc, bytes)?;
        let (second, rest) = B::read(alloc, rest)?;
        Ok(((first, second), rest))
    }

    fn write(&self, into: &mut Vec<u8>) -> Result<(), AllocError> {
        self.0.write(into)?;
        self.1.write(into)
    }
}
