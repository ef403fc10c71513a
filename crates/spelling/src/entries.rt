//! Lists of values that take the same number of bytes each, read in place.

ghost use Rattle.std.specs.Prelude.{◌≡◌, ◌<◌, ◌*◌, ℕ, List, [], length, Some, slice_get, IfOk, IsTrue, ◌↔◌, ◌^◌};
ghost use Rattle.spelling.specs.Format.{many, list_of, long_list_of};
ghost use Rattle.spelling.specs.Entries.{values, IsFixed};
ghost use Rattle.spelling.specs.Fixed.{byte_value, number_value, digest_value, byte_fixed, number_fixed, digest_fixed};
ghost use Rattle.spelling.specs.Outcome.{Reads};

use crate::fault::Short;
use crate::format::Formatted;
use crate::number::{read_u32, read_u64};
use std::marker::{Model, PhantomData};

/// A type whose values take the same number of bytes each.
pub trait Fixed: Formatted + Drop {
    /// How many bytes a value takes.
    const SIZE: usize;

    ghost SIZE: { ℕ };

    ghost value: { List ℕ → Self };

    /// The value that so many bytes spell.
    fn at(bytes: &[u8]) -> Self
        requires { length bytes.now ≡ SIZE }
        ensures { result ≡ value bytes.now };

    ghost is_fixed: { IsFixed Self.format SIZE value };
}

/// Values in bytes that they are read from when they are wanted. Contracts see them as a list.
#[derive(Drop)]
pub struct Entries<'a, T: Fixed> {
    bytes: &'a [u8],
    count: u64,
    of: PhantomData<T>,
}

impl<'a, T: Fixed> Model for Entries<'a, T> {
    ghost Value = { List T };

    ghost view = { λ e. values T.value T.SIZE e.count e.bytes.now };

    ghost invariant = { λ e. length e.bytes.now ≡ T.SIZE * e.count };
}

impl<'a, T: Fixed> Entries<'a, T> {
    /// So many values, one after another, and the bytes that follow them.
    pub fn read(count: u64, bytes: &'a [u8]) -> Result<(Entries<'a, T>, &'a [u8]), Short>
        ensures gives { Reads (λ x. (x.0, x.1.now)) result ((many T.format count).read bytes.now) }
        ensures count { IfOk result (λ x. length x.0 ≡ count) }
    {
        let size = T::SIZE;
        let room = bytes.len();
        let Some(len) = size.checked_mul(count as usize) else {
            return Err(Short);
        };
        if room < len {
            return Err(Short);
        }
        let (bytes, rest) = bytes.split_at(len);
        let entries = Entries {
            bytes,
            count,
            of: PhantomData,
        };
        Ok((entries, rest))
    }

    /// A list whose count takes four bytes, and the bytes that follow it.
    pub fn read_list(bytes: &'a [u8]) -> Result<(Entries<'a, T>, &'a [u8]), Short>
        ensures gives { Reads (λ x. (x.0, x.1.now)) result ((list_of T.format).read bytes.now) }
        ensures few { IfOk result (λ x. length x.0 < 2 ^ 32) }
    {
        let (count, rest) = read_u32(bytes)?;
        Entries::read(u64::from(count), rest)
    }

    /// A list whose count takes eight bytes, and the bytes that follow it.
    pub fn read_long_list(bytes: &'a [u8]) -> Result<(Entries<'a, T>, &'a [u8]), Short>
        ensures { Reads (λ x. (x.0, x.1.now)) result ((long_list_of T.format).read bytes.now) }
    {
        let (count, rest) = read_u64(bytes)?;
        Entries::read(count, rest)
    }

    /// How many values there are.
    pub fn len(&self) -> u64
        ensures { result ≡ length self.now }
    {
        self.count
    }

    /// Whether there is none.
    pub fn is_empty(&self) -> bool
        ensures { IsTrue result ↔ (self.now ≡ []) }
    {
        self.count == 0
    }

    /// The value at a place.
    pub fn get(&self, at: u64) -> T
        requires { at < length self.now }
        ensures { slice_get self.now at ≡ Some result }
    {
        let bytes = self.bytes;
        let size = T::SIZE;
        let start = size * at as usize;
        let (_, rest) = bytes.split_at(start);
        let (piece, _) = rest.split_at(size);
        T::at(piece)
    }
}

impl Fixed for u8 {
    const SIZE: usize = 1;

    ghost SIZE = { 1 };

    ghost value = { byte_value };

    fn at(bytes: &[u8]) -> u8 {
        bytes[0]
    }

    ghost is_fixed = { byte_fixed };
}

impl Fixed for u32 {
    const SIZE: usize = 4;

    ghost SIZE = { 4 };

    ghost value = { number_value };

    fn at(bytes: &[u8]) -> u32 {
        u32::from_le_bytes([bytes[0], bytes[1], bytes[2], bytes[3]])
    }

    ghost is_fixed = { number_fixed };
}

impl Fixed for [u8; 32] {
    const SIZE: usize = 32;

    ghost SIZE = { 32 };

    ghost value = { digest_value };

    fn at(bytes: &[u8]) -> [u8; 32] {
        let mut digest = [0; 32];
        digest.copy_from_slice(bytes);
        digest
    }

    ghost is_fixed = { digest_fixed };
}
