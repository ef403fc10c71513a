//! Lists of values.

ghost use Rattle.std.specs.Prelude.{◌≡◌, ◌++◌, OnOk, All};
ghost use Rattle.std.specs.List.{flat_map, AllByRecursion};
ghost use Rattle.object_format.specs.Counts.{AreCountable};
ghost use Rattle.spelling.specs.Format as format;
ghost use Rattle.spelling.specs.Outcome.{Gives};

use crate::layout::stored::Stored;
use cov_base::{Failure, Seq};
use spelling::{Short, read_u32};
use std::alloc::{AllocError, Global};

/// So many values, one after another, and the bytes that follow them.
pub fn read_values<T: Stored>(
    alloc: Global,
    count: u32,
    bytes: &[u8],
) -> Result<(Vec<T>, &[u8]), Failure<Short>>
    ensures { Gives (λ x. (x.0.items, x.1.now)) result (format.read_many T.format.read count bytes.now) }
{
    let mut values = Vec::new(alloc);
    let mut rest = bytes;
    for _ in 0..count {
        let (value, after) = T::read(alloc, rest)?;
        values.push(value)?;
        rest = after;
    }
    Ok((values, rest))
}

/// Appends values, one after another.
pub fn put_values<T: Stored>(into: &mut Vec<u8>, values: &[T]) -> Result<(), AllocError>
    requires { All T.is_counted values.now }
    ensures appends { OnOk result (into.new.items ≡ into.old.items ++ flat_map T.format.spell values.now) }
    ensures fits { OnOk result (AllByRecursion T.format.Fits values.now) }
{
    for value in values {
        value.write(into)?;
    }
    Ok(())
}

/// The values of a list, and the bytes that follow it.
pub fn read_list<T: Stored>(alloc: Global, bytes: &[u8]) -> Result<(Vec<T>, &[u8]), Failure<Short>>
    ensures { Gives (λ x. (x.0.items, x.1.now)) result ((format.list_of T.format).read bytes.now) }
{
    let (count, rest) = read_u32(bytes)?;
    read_values(alloc, count, rest)
}

/// Appends a list.
pub fn put_list<T: Stored>(into: &mut Vec<u8>, values: &[T]) -> Result<(), AllocError>
    requires { AreCountable T.is_counted values.now }
    ensures appends { OnOk result (into.new.items ≡ into.old.items ++ (format.list_of T.format).spell values.now) }
    ensures fits { OnOk result ((format.list_of T.format).Fits values.now) }
{
    let count = values.len() as u32;
    count.write(into)?;
    put_values(into, values)
}

impl<T: Stored> Stored for Seq<T> {
    ghost format = { format.list_of T.format };

    ghost is_counted = { AreCountable T.is_counted };

    fn read(alloc: Global, bytes: &[u8]) -> Result<(Seq<T>, &[u8]), Failure<Short>> {
        let (values, rest) = read_list(alloc, bytes)?;
        Ok((Seq::from(values), rest))
    }

    fn write(&self, into: &mut Vec<u8>) -> Result<(), AllocError> {
        put_list(into, self.as_slice())
    }
}
