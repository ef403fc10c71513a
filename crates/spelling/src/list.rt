//! Lists and texts.

ghost use Rattle.std.specs.Prelude.{◌≡◌, ◌++◌, ◌<◌, ◌^◌, length, OnOk, All};
ghost use Rattle.std.specs.List.{flat_map, AllByRecursion};
ghost use Rattle.spelling.specs.Format as format;
ghost use Rattle.spelling.specs.Laws.{list_of_ok, string_ok};
ghost use Rattle.spelling.specs.Outcome.{Gives};

use crate::fault::Short;
use crate::format::{Formatted, Readable, Writable};
use crate::number::{put_u64, read_bytes, read_u32, read_u64};
use cov_base::{Bytes, Failure, Seq, put_u32};
use std::alloc::{AllocError, Global};

/// So many values, one after another, and the bytes that follow them.
pub fn read_many<T: Readable>(
    alloc: Global,
    count: u64,
    bytes: &[u8],
) -> Result<(Vec<T>, &[u8]), Failure<Short>>
    ensures { Gives (λ x. (x.0.items, x.1.now)) result (format.read_many T.format.read count bytes.now) }
{
    let mut values = Vec::new(alloc);
    let mut rest = bytes;
    for _ in 0..count {
        let (value, after) = T::read(alloc, rest)?;
        values.push(value)?;
        rest = after;
    }
    Ok((values, rest))
}

/// Appends values that have a spelling, one after another.
pub fn put_many<T: Writable>(into: &mut Vec<u8>, values: &[T]) -> Result<(), AllocError>
    requires { All T.CountsFit values.now }
    ensures spelled { OnOk result (into.new.items ≡ into.old.items ++ flat_map T.format.spell values.now) }
    ensures fits { OnOk result (AllByRecursion T.format.Fits values.now) }
{
    for value in values {
        value.write(into)?;
    }
    Ok(())
}

impl<T: Formatted> Formatted for Seq<T> {
    ghost format = { format.list_of T.format };

    ghost is_format = { list_of_ok T.format T.is_format };
}

impl<T: Readable> Readable for Seq<T> {
    fn read(alloc: Global, bytes: &[u8]) -> Result<(Seq<T>, &[u8]), Failure<Short>> {
        let (count, rest) = read_u32(bytes)?;
        let (values, rest) = read_many(alloc, u64::from(count), rest)?;
        Ok((Seq::from(values), rest))
    }
}

impl<T: Writable> Writable for Seq<T> {
    ghost CountsFit = { λ xs. (length xs < 2 ^ 32) × All T.CountsFit xs };

    #[tactic(auto, unfolding(crate::specs::Format::word))]
    fn write(&self, into: &mut Vec<u8>) -> Result<(), AllocError> {
        put_u32(into, self.len() as u32)?;
        put_many(into, self.as_slice())
    }
}

impl Formatted for Bytes {
    ghost format = { format.string };

    ghost is_format = { string_ok };
}

impl Readable for Bytes {
    fn read(alloc: Global, bytes: &[u8]) -> Result<(Bytes, &[u8]), Failure<Short>> {
        let (len, rest) = read_u32(bytes)?;
        let (text, rest) = read_bytes(len as usize, rest)?;
        let text = Vec::from_slice(alloc, text)?;
        Ok((Bytes::from(text), rest))
    }
}

impl Writable for Bytes {
    ghost CountsFit = { λ text. length text < 2 ^ 32 };

    #[tactic(auto, unfolding(crate::specs::Format::word))]
    fn write(&self, into: &mut Vec<u8>) -> Result<(), AllocError> {
        put_u32(into, self.len() as u32)?;
        into.extend_from_slice(self.as_slice())
    }
}

/// The values of a list whose count takes eight bytes, and the bytes that follow them.
pub fn read_long_list<T: Readable>(
    alloc: Global,
    bytes: &[u8],
) -> Result<(Seq<T>, &[u8]), Failure<Short>>
    ensures { Gives (λ x. (x.0, x.1.now)) result ((format.long_list_of T.format).read bytes.now) }
{
    let (count, rest) = read_u64(bytes)?;
    let (values, rest) = read_many(alloc, count, rest)?;
    Ok((Seq::from(values), rest))
}

/// Appends a list whose count takes eight bytes.
pub fn put_long_list<T: Writable>(into: &mut Vec<u8>, values: &[T]) -> Result<(), AllocError>
    requires { All T.CountsFit values.now }
    ensures spelled { OnOk result (into.new.items ≡ into.old.items ++ (format.long_list_of T.format).spell values.now) }
    ensures fits { OnOk result ((format.long_list_of T.format).Fits values.now) }
{
    put_u64(into, values.len() as u64)?;
    put_many(into, values)
}
