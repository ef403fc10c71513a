//! The numbers and letters by which files name things.

ghost use Rattle.std.specs.Prelude.{refl};
ghost use Rattle.spelling.specs.Format.{number, byte, seen_as};
ghost use Rattle.spelling.specs.Laws.{number_ok, byte_ok, seen_as_ok};

use crate::fault::Short;
use crate::format::{Formatted, Readable, Writable};
use crate::number::{read_u8, read_u32};
use cov_base::{CondIx, DecId, Failure, InstId, Letter, StmtId};
use std::alloc::{AllocError, Global};

impl Formatted for StmtId {
    ghost format = { seen_as number (λ n. record { 0 = n }) (λ id. id.0) };

    ghost is_format = { seen_as_ok _ _ _ number_ok (λ _ _. refl) (λ _. refl) };
}

impl Readable for StmtId {
    fn read(_alloc: Global, bytes: &[u8]) -> Result<(StmtId, &[u8]), Failure<Short>> {
        let (number, rest) = read_u32(bytes)?;
        Ok((StmtId(number), rest))
    }
}

impl Writable for StmtId {
    ghost CountsFit = { λ _. Unit {0} };

    fn write(&self, into: &mut Vec<u8>) -> Result<(), AllocError> {
        self.0.write(into)
    }
}

impl Formatted for DecId {
    ghost format = { seen_as number (λ n. record { 0 = n }) (λ id. id.0) };

    ghost is_format = { seen_as_ok _ _ _ number_ok (λ _ _. refl) (λ _. refl) };
}

impl Readable for DecId {
    fn read(_alloc: Global, bytes: &[u8]) -> Result<(DecId, &[u8]), Failure<Short>> {
        let (number, rest) = read_u32(bytes)?;
        Ok((DecId(number), rest))
    }
}

impl Writable for DecId {
    ghost CountsFit = { λ _. Unit {0} };

    fn write(&self, into: &mut Vec<u8>) -> Result<(), AllocError> {
        self.0.write(into)
    }
}

impl Formatted for InstId {
    ghost format = { seen_as number (λ n. record { 0 = n }) (λ id. id.0) };

    ghost is_format = { seen_as_ok _ _ _ number_ok (λ _ _. refl) (λ _. refl) };
}

impl Readable for InstId {
    fn read(_alloc: Global, bytes: &[u8]) -> Result<(InstId, &[u8]), Failure<Short>> {
        let (number, rest) = read_u32(bytes)?;
        Ok((InstId(number), rest))
    }
}

impl Writable for InstId {
    ghost CountsFit = { λ _. Unit {0} };

    fn write(&self, into: &mut Vec<u8>) -> Result<(), AllocError> {
        self.0.write(into)
    }
}

impl Formatted for CondIx {
    ghost format = { seen_as byte (λ n. record { 0 = n }) (λ id. id.0) };

    ghost is_format = { seen_as_ok _ _ _ byte_ok (λ _ _. refl) (λ _. refl) };
}

impl Readable for CondIx {
    fn read(_alloc: Global, bytes: &[u8]) -> Result<(CondIx, &[u8]), Failure<Short>> {
        let (byte, rest) = read_u8(bytes)?;
        Ok((CondIx(byte), rest))
    }
}

impl Writable for CondIx {
    ghost CountsFit = { λ _. Unit {0} };

    fn write(&self, into: &mut Vec<u8>) -> Result<(), AllocError> {
        self.0.write(into)
    }
}

impl Formatted for Letter {
    ghost format = { seen_as byte (λ n. record { 0 = n }) (λ id. id.0) };

    ghost is_format = { seen_as_ok _ _ _ byte_ok (λ _ _. refl) (λ _. refl) };
}

impl Readable for Letter {
    fn read(_alloc: Global, bytes: &[u8]) -> Result<(Letter, &[u8]), Failure<Short>> {
        let (byte, rest) = read_u8(bytes)?;
        Ok((Letter(byte), rest))
    }
}

impl Writable for Letter {
    ghost CountsFit = { λ _. Unit {0} };

    fn write(&self, into: &mut Vec<u8>) -> Result<(), AllocError> {
        self.0.write(into)
    }
}
