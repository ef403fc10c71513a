//! Counts and places in lists as numbers of a fixed width. A list that would need a number beyond its width
//! has no memory, and nothing else is answered so: each call says when.

ghost use Rattle.std.specs.Prelude.{◌≡◌, ◌+◌, ◌*◌, ◌≤◌, ◌^◌, pos, IfOk, IfErr};

use std::alloc::AllocError;

/// The place of an item in a list, or how many items a list has. Lists of 2^32 items have no memory.
pub fn numbered(count: usize) -> Result<u32, AllocError>
    ensures number { IfOk result (λ n. n ≡ count) }
    ensures refused { IfErr result (λ e. 2 ^ 32 ≤ count) }
{
    u32::try_from(count).map_err(|_| AllocError)
}

/// The number behind this one. A list with items beyond the number 2^32 - 1 has no memory.
pub fn number_behind(number: u32) -> Result<u32, AllocError>
    ensures number { IfOk result (λ n. n ≡ number + 1) }
    ensures refused { IfErr result (λ e. 2 ^ 32 ≤ number + 1) }
{
    number.checked_add(1).ok_or(AllocError)
}

/// The number so many items further on, or how many items two lists have. Lists of 2^32 items have no memory.
pub fn number_after(number: u32, count: u32) -> Result<u32, AllocError>
    ensures number { IfOk result (λ n. n ≡ number + count) }
    ensures refused { IfErr result (λ e. 2 ^ 32 ≤ number + count) }
{
    number.checked_add(count).ok_or(AllocError)
}

/// The place of an item in a list of at most 256 items. A longer one has no memory.
pub fn byte_numbered(count: usize) -> Result<u8, AllocError>
    ensures number { IfOk result (λ n. n ≡ count) }
    ensures refused { IfErr result (λ e. 256 ≤ count) }
{
    u8::try_from(count).map_err(|_| AllocError)
}

/// The number behind this one in a list of at most 256 items. A longer one has no memory.
pub fn byte_behind(number: u8) -> Result<u8, AllocError>
    ensures number { IfOk result (λ n. n ≡ number + 1) }
    ensures refused { IfErr result (λ e. 256 ≤ number + 1) }
{
    number.checked_add(1).ok_or(AllocError)
}

/// The place of an item in a list, as a number with a sign: the position number of a literal. Lists of 2^31 items
/// have no memory.
pub fn signed_numbered(count: usize) -> Result<i32, AllocError>
    ensures number { IfOk result (λ n. n ≡ pos count) }
    ensures refused { IfErr result (λ e. 2 ^ 31 ≤ count) }
{
    i32::try_from(count).map_err(|_| AllocError)
}

/// How many words two things have that stand in memory. 2^64 words have no memory.
pub fn size_of_both(first: u64, second: u64) -> Result<u64, AllocError>
    ensures size { IfOk result (λ n. n ≡ first + second) }
    ensures refused { IfErr result (λ e. 2 ^ 64 ≤ first + second) }
{
    first.checked_add(second).ok_or(AllocError)
}

/// How many words so many things of one size have. 2^64 words have no memory.
pub fn size_of_all(count: u64, size: u64) -> Result<u64, AllocError>
    ensures size { IfOk result (λ n. n ≡ count * size) }
    ensures refused { IfErr result (λ e. 2 ^ 64 ≤ count * size) }
{
    count.checked_mul(size).ok_or(AllocError)
}

/// How many items two lists have. 2^64 items have no memory.
pub fn count_of_both(first: usize, second: usize) -> Result<usize, AllocError>
    ensures count { IfOk result (λ n. n ≡ first + second) }
    ensures refused { IfErr result (λ e. 2 ^ 64 ≤ first + second) }
{
    first.checked_add(second).ok_or(AllocError)
}
